ghost use Rattle.std.specs.Prelude.{◌≡◌, [], ◌∷◌, replicate};
ghost use Rattle.part.specs.Sets.{parts};
ghost use Rattle.port.specs.Reach.{Reach, widen};
ghost use Rattle.port.specs.Sets.{answered, may_receive, may_send, no_sets, receives_of, sends_of, settled};

use super::{PORTS, Port, Ports};
use crate::refusal::PortRefusal;
use part::set::{Mask, PARTS, contains, single};

impl Port {
    // A set with the senders and receivers of this port, where a member of `members` may receive from it.
    fn added_to(&self, wider: Mask, members: Mask) -> Mask
        ensures { result ≡ widen members (self.now ∷ []) wider }
    {
        if self.receivers & members == 0 {
            return wider;
        }
        wider | (self.senders | self.receivers)
    }
}

impl Ports {
    // Sixteen ports with no senders and no receivers.
    pub fn new() -> Ports
        ensures { result.ports ≡ replicate 16 no_sets }
    {
        Ports {
            ports: [Port {
                senders: 0,
                receivers: 0,
            }; 16],
        }
    }

    // Sets the senders and the receivers of a port, in place of those that it had.
    pub fn set(&mut self, port: u8, senders: Mask, receivers: Mask) -> Result<(), PortRefusal>
        ensures after { self.new.ports ≡ settled self.old.ports port senders receivers }
        ensures answer { result ≡ answered port }
    {
        // An index, since what `get_mut` lends is not known to be the place that changes.
        if port >= PORTS {
            return Err(PortRefusal::Port);
        }
        self.ports[port as usize] = Port { senders, receivers };
        Ok(())
    }

    // Whether the part may send to the port.
    pub fn may_send(&self, port: u8, part: u8) -> bool
        ensures { result ≡ may_send parts self.now port part }
    {
        self.ports
            .get(port as usize)
            .is_some_and(|p| contains(p.senders, part))
    }

    // Whether the part may receive from the port.
    pub fn may_receive(&self, port: u8, part: u8) -> bool
        ensures { result ≡ may_receive parts self.now port part }
    {
        self.ports
            .get(port as usize)
            .is_some_and(|p| contains(p.receivers, part))
    }

    // The set with the senders and receivers of every port that a member may receive from.
    fn widened(&self, set: Mask) -> Mask
        ensures { result ≡ widen set self.now.ports set }
    {
        self.ports
            .iter()
            .fold(set, |wider, p| p.added_to(wider, set))
    }

    // The parts upstream of a part; none for a part from PARTS on.
    pub fn upstream(&self, part: u8) -> Mask
        ensures { Reach parts (sends_of self.now) (receives_of self.now) part result }
    {
        if part >= PARTS {
            return 0;
        }
        let mut set = single(part);
        // Until the set stays: nothing is counted.
        loop {
            let wider = self.widened(set);
            if wider == set {
                return set;
            }
            set = wider;
        }
    }
}
