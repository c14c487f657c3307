// One line of a script, answered in words.
ghost use Rattle.std.specs.Prelude.{◌≡◌, OnOk};
ghost use Rattle.script.specs.Lines.{line_of};
ghost use Rattle.session.specs.Steps.{stepped_by};

use crate::show::{IndexList, Joined};
use script::parse;
use session::{Answer, Session};
use std::alloc::{AllocError, Global};

// What `help` prints.
pub const HELP: &str = "\
Lines that stackfold takes, one call a line; a line that begins with # is a remark.
  text BYTES                      the text of names; no field and no list stands from then on
  field NAME TYPE [null] [tag N]  one field more; TYPE is Int8, Int16, Int32, Int64, Boolean, Utf8 or a number
  schema                          checks the fields and shows the schema that they are
  find NAME                       the place of the schema's first field of that name
  lower LIST                      the index list that the next one is to stand on
  combine LIST [into N]           the list over the one that stands, which it replaces; N is the output's length
  help                            these lines
A NAME is a word that stands in the text, or @START:LEN. A LIST is numbers, or absent.";

// The list that stands, with the columns that it picks.
fn show_list(heap: Global, session: &Session) -> Result<String, AllocError> {
    let list = IndexList {
        indices: session.beneath(),
    };
    match session.columns(heap) {
        Ok(columns) => {
            let names = Joined {
                text: session.text(),
                items: columns.as_slice(),
            };
            format!(in heap; "{list}: {names}")
        }
        Err(trouble) => {
            let fault = trouble.refused()?;
            format!(in heap; "{list}; its columns have no names: {fault}")
        }
    }
}

// An answer, in words. A `match`: the answers are these, and each has its own parts.
fn show_answer(heap: Global, session: &Session, answer: Answer) -> Result<String, AllocError> {
    match answer {
        Answer::Nothing => Ok(String::new(heap)),
        Answer::Help => String::from_str(heap, HELP),
        Answer::Text(count) => format!(in heap; "a text of {count} bytes"),
        Answer::Schema(count) => {
            let fields = session.fields();
            let fields = Joined {
                text: session.text(),
                items: fields.get(..count).unwrap_or(fields),
            };
            format!(in heap; "a schema of {count} fields: {fields}")
        }
        Answer::Field(place) | Answer::Found(place) => format!(in heap; "field {place}"),
        Answer::Listed(_) => show_list(heap, session),
    }
}

// Performs one line and answers it in words: what was done, why it was refused, or what is wrong with the line. A line that
// is refused or is none changes nothing.
pub fn reply(
    heap: Global,
    session: &mut Session,
    number: u64,
    line: &[u8],
) -> Result<String, AllocError>
    ensures { OnOk result
        (session.new ≡ stepped_by session.old (line_of session.old.text line.now)) }
{
    let line = match parse(heap, session.text(), line) {
        Ok(line) => line,
        Err(trouble) => {
            let malformed = trouble.refused()?;
            return format!(in heap; "line {number}: {malformed}");
        }
    };
    match session.perform(heap, line) {
        Ok(answer) => show_answer(heap, session, answer),
        Err(trouble) => {
            let fault = trouble.refused()?;
            format!(in heap; "{fault}")
        }
    }
}
