//! Names of durable subscriptions.

ghost use Rattle.std.specs.Prelude.{◌≡◌, ◌<◌, length};
ghost use Rattle.command_core.specs.Texts.{IsGiven};

use command_core::HeaderText;
use std::alloc::AllocError;
use std::cmp::Ordering;
use std::marker::Model;

/// The name of a durable subscription: that of its client (`client-id` of CONNECT) and its own
/// (`activemq.subscriptionName` of SUBSCRIBE), neither empty. Names stand by the client's, and then by their own. Contracts
/// see the pair of their bytes.
#[derive(Drop)]
pub struct DurableName {
    client: GivenName,
    name: GivenName,
}

impl Model for DurableName {
    ghost use Rattle.std.specs.Prelude.{List, ℕ};

    ghost Value = { List ℕ × List ℕ };

    ghost view = { λ a. (a.client, a.name) };
}

impl DurableName {
    /// The name `name` of client `client`. No memory is taken.
    pub fn new(client: GivenName, name: GivenName) -> DurableName
        ensures { result ≡ (client, name) }
    {
        DurableName { client, name }
    }

    /// The name of the client, which its CONNECT gave as `client-id`.
    pub fn client(&self) -> &GivenName
        ensures { result.now ≡ self.now.0 }
    {
        &self.client
    }

    /// The name that the client gave the subscription.
    pub fn name(&self) -> &GivenName
        ensures { result.now ≡ self.now.1 }
    {
        &self.name
    }
}

impl Clone for DurableName {
    ghost use Rattle.std.specs.Prelude.{◌≡◌};

    ghost is_clone = { λ old copy. copy ≡ old };

    fn clone(&self) -> Result<DurableName, AllocError> {
        Ok(DurableName::new(self.client.clone()?, self.name.clone()?))
    }
}

impl PartialEq for DurableName {
    ghost use Rattle.std.specs.Prelude.{◌&&◌, List, ℕ};
    ghost use Rattle.std.specs.Cmp.{and_equiv, on_equiv, partial_equiv_from_equiv};
    ghost use Rattle.std.specs.Str.{bytes_eq};
    ghost use Rattle.std.proofs.lemmas.Cmp.{nat_list_eq_equiv};

    ghost eq = { λ x y. bytes_eq x.0 y.0 && bytes_eq x.1 y.1 };

    ghost laws = { partial_equiv_from_equiv (and_equiv (on_equiv (λ (t : List ℕ × List ℕ). t.0) nat_list_eq_equiv) (on_equiv (λ (t : List ℕ × List ℕ). t.1) nat_list_eq_equiv)) };

    fn eq(&self, other: &DurableName) -> bool {
        self.client == other.client && self.name == other.name
    }
}

impl Eq for DurableName {
    ghost use Rattle.std.specs.Prelude.{List, ℕ};
    ghost use Rattle.std.specs.Cmp.{and_equiv, on_equiv};
    ghost use Rattle.std.proofs.lemmas.Cmp.{nat_list_eq_equiv};

    ghost laws = { and_equiv (on_equiv (λ (t : List ℕ × List ℕ). t.0) nat_list_eq_equiv) (on_equiv (λ (t : List ℕ × List ℕ). t.1) nat_list_eq_equiv) };
}

impl PartialOrd for DurableName {
    ghost use Rattle.std.specs.Prelude.{List, Some, ℕ};
    ghost use Rattle.std.specs.Cmp.{on_po, then_po};
    ghost use Rattle.std.specs.Cmp.Lexicographic.{texts_po};
    ghost use Rattle.std.specs.Ordering.{partial_ordering_then};
    ghost use Rattle.broker_state.specs.Names.{text_cmp};

    ghost partial_cmp = { λ x y. partial_ordering_then (Some (text_cmp x.0 y.0)) (Some (text_cmp x.1 y.1)) };

    ghost laws = { then_po (on_po (λ (t : List ℕ × List ℕ). t.0) texts_po) (on_po (λ (t : List ℕ × List ℕ). t.1) texts_po) };

    fn partial_cmp(&self, other: &DurableName) -> Option<Ordering> {
        Some(self.cmp(other))
    }
}

impl Ord for DurableName {
    ghost use Rattle.std.specs.Prelude.{List, ℕ, refl};
    ghost use Rattle.std.specs.Cmp.{both_tied, on_total, then_agrees, then_total};
    ghost use Rattle.std.specs.Cmp.Lexicographic.{texts_ties};
    ghost use Rattle.std.proofs.lemmas.Cmp.{nat_list_cmp_total};
    ghost use Rattle.broker_state.specs.Names.{name_cmp, text_cmp};

    ghost cmp = { name_cmp };

    ghost total = { then_total (on_total (λ (t : List ℕ × List ℕ). t.0) nat_list_cmp_total) (on_total (λ (t : List ℕ × List ℕ). t.1) nat_list_cmp_total) };

    ghost matches_partial_cmp = { then_agrees (λ x y. refl) (λ x y. refl) };

    ghost matches_eq = { λ x y. both_tied _ _ (text_cmp x.0 y.0) (text_cmp x.1 y.1) (texts_ties x.0 y.0) (texts_ties x.1 y.1) };

    fn cmp(&self, other: &DurableName) -> Ordering {
        match self.client.cmp(&other.client) {
            Ordering::Equal => self.name.cmp(&other.name),
            decided => decided,
        }
    }
}

/// A name that a client gives itself, or a durable subscription of its own: header text that is not empty. Contracts see it
/// as the list of its bytes.
#[derive(Clone, Drop, PartialEq, Eq, PartialOrd, Ord)]
pub struct GivenName {
    text: HeaderText,
}

impl Model for GivenName {
    ghost use Rattle.std.specs.Prelude.{◌<◌, List, ℕ, length};

    ghost Value = { List ℕ };

    ghost view = { λ a. a.text };

    ghost inverse = { λ bytes. record { text = bytes } };

    ghost invariant = { λ a. 0 < length a.text };
}

impl GivenName {
    /// A text that is not empty, which moves: no memory is taken.
    pub fn new(text: HeaderText) -> GivenName
        requires { 0 < length text }
        ensures { result ≡ text }
    {
        GivenName { text }
    }

    /// A name that may be absent, and is not empty if it is there. It moves: no memory is taken.
    pub fn optional(name: Option<HeaderText>) -> Option<GivenName>
        requires { IsGiven name }
        ensures { result ≡ name }
    {
        match name {
            Some(text) => Some(GivenName::new(text)),
            None => None,
        }
    }

    /// The name, as the text of a header.
    pub fn as_text(&self) -> &HeaderText
        ensures value { result.now ≡ self.now }
        ensures form { 0 < length self.now }
    {
        &self.text
    }
}
