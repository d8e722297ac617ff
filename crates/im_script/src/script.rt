ghost use Rattle.std.specs.Prelude.{IfOk};
ghost use Rattle.std.specs.List.{All};
ghost use Rattle.im_script.specs.Forms as forms;
ghost use Rattle.im_script.specs.Lines as lines_are;

use crate::cut::first_line;
use crate::line::Line;
use crate::reading::line_of;
use im_values::NoMemory;
use std::alloc::Global;

/// The lines of a script, in order.
///
/// A line for which memory ran out has the kind NoMemory; an error is out of memory for the list itself.
pub fn lines(alloc: Global, script: &[u8]) -> Result<Vec<Line>, NoMemory>
    // They are the lines of the script.
    ensures are { IfOk result (λ ls. lines_are.AreLines 1 (forms.lines_of script.now) ls.items) }
    // Each names a session, the background by 0, or nobody.
    ensures names { IfOk result (λ ls. All lines_are.NamesOneOf16 ls.items) }
{
    let mut lines = Vec::new(alloc);
    let mut rest = script;
    let mut number = 0;
    while rest.len() > 0 {
        let (line, behind) = first_line(rest);
        number += 1;
        lines.push(line_of(alloc, number, line))?;
        rest = behind;
    }
    Ok(lines)
}
