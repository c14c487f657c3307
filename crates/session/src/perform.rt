// One line of a script, performed.
ghost use Rattle.std.specs.Prelude.{◌≡◌, is_ok, if◌then◌else◌};
ghost use Rattle.script.specs.Lines.{said};
ghost use Rattle.session.specs.Sessions.{Answers};
ghost use Rattle.session.specs.Steps.{answer_to, view_after};

use crate::answer::Answer;
use crate::state::{Session, count_of};
use common::{Fault, Trouble};
use script::Line;
use std::alloc::Global;

impl Session {
    // Does what the line says. Refused, or where memory runs out, everything is as before. A `match`: the lines are these, and
    // each has its own parts.
    pub fn perform(&mut self, heap: Global, line: Line) -> Result<Answer, Trouble<Fault>>
        ensures value { Answers (answer_to self.old (said line)) result }
        ensures after { self.new
            ≡ (if is_ok result then view_after self.old (said line) else self.old) }
    {
        match line {
            Line::Blank => Ok(Answer::Nothing),
            Line::Help => Ok(Answer::Help),
            Line::Text(text) => {
                let count = text.len();
                self.set_text(text);
                Ok(Answer::Text(count))
            }
            Line::Field(field) => Ok(Answer::Field(self.add_field(field)?)),
            Line::Schema => Ok(Answer::Schema(self.schema_len()?)),
            Line::Find(name) => Ok(Answer::Found(self.find(name)?)),
            Line::Lower(list) => {
                let count = count_of(list.as_deref());
                self.set_beneath(list);
                Ok(Answer::Listed(count))
            }
            Line::Combine { upper, room } => Ok(Answer::Listed(self.combine(heap, upper, room)?)),
        }
    }
}
