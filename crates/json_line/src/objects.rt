//! JSON objects (RFC 8259), member by member.

ghost use Rattle.std.specs.Prelude.{◌≡◌, ◌∷◌, [], IfOk, option_map};
ghost use Rattle.json.specs.Token.{begin_array, key};
ghost use Rattle.json_line.specs.Objects.{Adds, line_of, number_member, option_member, text_member};

use json::Writer;
use std::alloc::AllocError;

/// Adds a member that is a number.
pub fn put_number(out: &mut Writer, name: &str, value: u64) -> Result<(), AllocError>
    ensures { Adds result out.old out.new (number_member name.now value) }
{
    out.key(name)?;
    out.u64(value)
}

/// Adds a member that is a text.
pub fn put_text(out: &mut Writer, name: &str, value: &str) -> Result<(), AllocError>
    ensures { Adds result out.old out.new (text_member name.now value.now) }
{
    out.key(name)?;
    out.string(value)
}

/// Adds a member that is a text if there is one, and else null.
pub fn put_option(out: &mut Writer, name: &str, value: Option<&str>) -> Result<(), AllocError>
    ensures { Adds result out.old out.new (option_member name.now (option_map (λ text. text.now) value.entry)) }
{
    match value {
        Some(text) => put_text(out, name, text),
        None => {
            out.key(name)?;
            out.null()
        }
    }
}

/// Adds the beginning of a member that is a list.
pub fn begin_list(out: &mut Writer, name: &str) -> Result<(), AllocError>
    ensures { Adds result out.old out.new (key name.now ∷ begin_array ∷ []) }
{
    out.key(name)?;
    out.begin_array()
}

/// The line of the object that was written.
pub fn line_of(out: Writer) -> Result<Vec<u8>, AllocError>
    requires { out.before ≡ [] }
    ensures { IfOk result (λ line. line.items ≡ line_of out.tokens) }
{
    let mut line = out.into_inner();
    match line.push(b'\n') {
        Ok(()) => Ok(line),
        Err(_) => {
            drop(line);
            Err(AllocError)
        }
    }
}
