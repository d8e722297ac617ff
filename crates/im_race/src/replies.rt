ghost use Rattle.std.specs.Prelude.{◌≡◌, drop};
ghost use Rattle.im_race.specs.inner.Answering as spec;

use im_replies::Reply;
use std::collections::VecDeque;
use std::marker::Model;

/// Replies of a session that wait for their lines, the first one in front.
#[derive(Drop)]
pub struct Replies {
    waiting: VecDeque<Reply>,
}

impl Model for Replies {
    ghost use Rattle.std.specs.Prelude.{List};
    ghost use Rattle.im_replies.specs.declared.reply.Reply.{Reply as AnyReply};

    ghost Value = { List AnyReply };

    ghost view = { λ r. r.waiting.items };
}

impl Replies {
    /// The replies of a list.
    pub fn of(replies: Vec<Reply>) -> Replies
        ensures { result ≡ replies.items }
    {
        Replies {
            waiting: VecDeque::from(replies),
        }
    }

    /// The next one.
    pub fn next(&mut self) -> Option<Reply>
        ensures next { result ≡ spec.first_reply self.old }
        ensures left { self.new ≡ drop 1 self.old }
    {
        self.waiting.pop_front()
    }
}
