// Which lines are the prelude's, which are raced, and by whom.
ghost use Rattle.std.specs.Prelude.{◌≡◌};
ghost use Rattle.std.specs.List.{list_any};
ghost use Rattle.im_race.specs.Lines as spec;

use im_script::{Line, LineKind};

/// Whether a line ends a prelude.
fn ends_prelude(kind: &LineKind) -> bool
    ensures { result ≡ spec.ends_prelude kind.now }
{
    matches!(kind, LineKind::Race)
}

/// Whether a line has a reply.
pub fn has_reply(kind: &LineKind) -> bool
    ensures { result ≡ spec.has_reply kind.now }
{
    !matches!(kind, LineKind::Skip | LineKind::Race)
}

/// Whether a session speaks in a line that has a reply.
pub fn speaks_in(who: u32, line: &Line) -> bool
    ensures { result ≡ spec.speaks_in who line.now }
{
    has_reply(&line.kind) && line.who == Some(who)
}

/// Whether a session speaks in one of these lines.
pub fn has_job(who: u32, lines: &[Line]) -> bool
    ensures { result ≡ list_any (spec.speaks_in who) lines.now }
{
    lines.iter().any(|line| speaks_in(who, line))
}

/// A script in two: the lines of its prelude, and those behind the line that ends it.
pub fn split_race(lines: &[Line]) -> (&[Line], &[Line])
    ensures prelude { result.0.now ≡ spec.prelude_of lines.now }
    ensures behind { result.1.now ≡ spec.behind_of lines.now }
{
    let mut at = 0;
    while at < lines.len() && !ends_prelude(&lines[at].kind) {
        at += 1;
    }
    let (prelude, rest) = lines.split_at(at);
    (prelude, rest.get(1..).unwrap_or(rest))
}
