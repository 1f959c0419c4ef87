ghost use Rattle.std.specs.Prelude.{◌≡◌, ◌+◌, min};
ghost use Rattle.queue.specs.Packed.{elements, messages_of};
ghost use Rattle.queue.specs.Queue.{appended, empty, first, taken};

use super::{First, MESSAGES, PortQueue};
use crate::message::Message;
use std::mem;

impl PortQueue {
    // No messages, and none missed.
    pub(crate) fn new() -> PortQueue
        ensures { messages_of result ≡ empty }
    {
        PortQueue {
            items: [Message::empty(); MESSAGES],
            len: 0,
            missed: 0,
        }
    }

    // One message more, in place of the oldest where the queue is full.
    pub(crate) fn append(&mut self, message: Message)
        ensures { messages_of self.new ≡ appended (elements message) (messages_of self.old) }
    {
        let n = self.len;
        if n < MESSAGES {
            self.items[n] = message;
            self.len = n + 1;
        } else {
            self.items.rotate_left(1);
            self.items[MESSAGES - 1] = message;
            self.missed = self.missed.saturating_add(1);
        }
    }

    // Takes the first message away; an empty queue gives one of no elements. Nobody tells the two apart.
    pub(crate) fn take(&mut self) -> First
        ensures after { messages_of self.new ≡ taken (messages_of self.old) }
        ensures message { elements result.message ≡ first (messages_of self.old).messages }
        ensures missed { result.missed ≡ (messages_of self.old).missed }
    {
        let missed = mem::take(&mut self.missed);
        if self.len == 0 {
            return First {
                message: Message::empty(),
                missed,
            };
        }
        let message = self.items[0];
        self.items.rotate_left(1);
        self.len -= 1;
        First { message, missed }
    }
}
