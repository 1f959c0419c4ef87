ghost use Rattle.std.specs.Prelude.{◌≡◌, ℕ};
ghost use Rattle.queue.specs.Packed.{packed_at, queue_at};
ghost use Rattle.queue.specs.Ports.{Given, Received, Sent};
ghost use Rattle.queue.specs.Queue.{empty};
ghost use Rattle.queue.specs.Runs.{LastEight};

use super::{PORTS, Queues, Taken};
use crate::message::Message;
use crate::port_queue::PortQueue;
use element::element::Element;

impl Queues {
    // All queues empty, and none missed.
    pub fn new() -> Queues
        ensures { (port : ℕ) → packed_at result port ≡ empty }
    {
        Queues {
            queues: [PortQueue::new(); 16],
        }
    }

    // Appends the first four values to a port's queue as one message; a port from PORTS on has none, and nothing is done.
    pub fn send<E: Element>(&mut self, port: u8, values: &[E])
        ensures sent { Sent (queue_at E.unpacked self.old) (queue_at E.unpacked self.new) port values.now }
        ensures run { LastEight E }
    {
        // An index, since what `get_mut` lends is not known to be the place that changes.
        if port >= PORTS {
            return;
        }
        let message = Message::of(values);
        self.queues[port as usize].append(message);
    }

    // Takes the first message of a port's queue away, and writes its elements into the first places, as far as there are
    // places. An empty queue, and a port from PORTS on, has no elements.
    pub fn receive<E: Element>(&mut self, port: u8, places: &mut [E]) -> Taken
        ensures queues { Received (queue_at E.unpacked self.old) (queue_at E.unpacked self.new) port }
        ensures given { Given (queue_at E.unpacked self.old port) places.old places.new result }
    {
        // An index, as above.
        if port >= PORTS {
            return Taken {
                count: 0,
                missed: 0,
            };
        }
        let first = self.queues[port as usize].take();
        let count = first.message.unpack_into(places);
        Taken {
            count,
            missed: first.missed,
        }
    }
}
