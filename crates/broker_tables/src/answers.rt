//! What becomes of the outputs of a command.

ghost use Rattle.std.specs.Prelude.{◌≡◌, ◌∷◌, [], IfSome, OnOk, Some, None, is_some};
ghost use Rattle.broker_tables.specs.Answers.{with_outs};

use command_core::Out;
use std::alloc::{AllocError, Global};
use std::marker::Model;

/// The outputs of a command; or nobody, who asks for none, so that none is made. Contracts see those that are kept.
#[derive(Drop)]
pub struct Answers {
    kept: Option<Vec<Out>>,
}

impl Model for Answers {
    ghost use Rattle.std.specs.Prelude.{option_map};
    ghost use Rattle.broker_tables.specs.Answers.{Answered};

    ghost Value = { Answered };

    ghost view = { λ a. option_map (λ outs. outs.items) a.kept };
}

impl Answers {
    /// The outputs of a command that has none yet. No memory is taken.
    pub fn kept(alloc: Global) -> Answers
        ensures { result ≡ Some [] }
    {
        Answers {
            kept: Some(Vec::new(alloc)),
        }
    }

    /// The outputs of a command, after these of others.
    pub fn after(outs: Vec<Out>) -> Answers
        ensures { result ≡ Some outs.items }
    {
        Answers { kept: Some(outs) }
    }

    /// Nobody hears the outputs.
    pub fn let_go() -> Answers
        ensures { result ≡ None }
    {
        Answers { kept: None }
    }

    /// Whether they are kept.
    pub fn are_kept(&self) -> bool
        ensures { result ≡ is_some self.now }
    {
        self.kept.is_some()
    }

    /// One more output, if they are kept.
    pub fn add(&mut self, out: Out) -> Result<(), AllocError>
        ensures { OnOk result (self.new ≡ with_outs (out ∷ []) self.old) }
    {
        match &mut self.kept {
            Some(outs) => {
                outs.push(out)?;
                Ok(())
            }
            None => Ok(()),
        }
    }

    /// Those that were kept.
    pub fn into_outs(self, alloc: Global) -> Vec<Out>
        ensures { IfSome self (λ outs. result.items ≡ outs) }
    {
        match self.kept {
            Some(outs) => outs,
            None => Vec::new(alloc),
        }
    }
}
