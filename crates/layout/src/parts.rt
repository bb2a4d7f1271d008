// The parts of a state, each a field of fields.
ghost use Rattle.layout.specs.Offsets.{activation_width, answer_width, allocs_width, key_width, queue_width, link_width, ports_width};
ghost use Rattle.layout.specs.Layout.{activation_of, activation_octets, owed_of, owed_octets, allocs_of, allocs_octets, key_of, key_octets, queue_of, queue_octets, link_of, link_octets, ports_of, ports_octets};

use super::field::{self, Field};
use super::{offsets, reading, writing};
use ids::OnuId;
use link::{Allocs, Key, Link, Owed, Queue};
use ports::Ports;
use station::Activation;

#[tactic(auto, unfolding(crate::specs::Layout::activation_of))]
impl Field for Activation {
    ghost WIDTH = { activation_width };

    const WIDTH: usize = offsets::ACTIVATION_WIDTH;

    ghost field_of = { activation_of };

    ghost octets_of = { activation_octets };

    fn shown(c: &[u8]) -> Activation {
        let number = field::field_at(c, offsets::NUMBER_AT);
        let left = field::field_at(c, offsets::TIME_AT);
        reading::activation_by(number, left)
    }

    fn lay(self, out: &mut [u8]) {
        self.number().lay(out);
        writing::time_left(self).lay(&mut out[offsets::TIME_AT..]);
    }
}

impl Field for Owed {
    ghost WIDTH = { answer_width };

    const WIDTH: usize = offsets::ANSWER_WIDTH;

    ghost field_of = { owed_of };

    ghost octets_of = { owed_octets };

    fn shown(c: &[u8]) -> Owed {
        Owed {
            response: reading::response_by(field::field_at(c, offsets::RESPONSE_AT)),
            seq_no: field::field_at(c, offsets::SEQ_NO_AT),
        }
    }

    fn lay(self, out: &mut [u8]) {
        out[offsets::RESPONSE_AT] = writing::response_number(self.response);
        out[offsets::SEQ_NO_AT] = self.seq_no;
    }
}

#[tactic(auto, unfolding(crate::specs::Layout::allocs_of))]
impl Field for Allocs {
    ghost WIDTH = { allocs_width };

    const WIDTH: usize = offsets::ALLOCS_WIDTH;

    ghost field_of = { allocs_of };

    ghost octets_of = { allocs_octets };

    fn shown(c: &[u8]) -> Allocs {
        let count: u8 = field::field_at(c, offsets::ALLOC_COUNT_AT);
        Allocs {
            ids: field::fields_at(c, offsets::ALLOC_IDS_AT),
            count: usize::from(count),
        }
    }

    fn lay(self, out: &mut [u8]) {
        let count = (self.count % 256) as u8;
        count.lay(out);
        field::lay_each(&self.ids, &mut out[offsets::ALLOC_IDS_AT..]);
    }
}

#[tactic(auto, unfolding(crate::specs::Layout::key_of))]
impl Field for Key {
    ghost WIDTH = { key_width };

    const WIDTH: usize = offsets::KEY_WIDTH;

    ghost field_of = { key_of };

    ghost octets_of = { key_octets };

    fn shown(c: &[u8]) -> Key {
        Key {
            held: field::field_at(c, offsets::HELD_AT),
            octets: field::octets_at(c, offsets::KEY_OCTETS_AT),
        }
    }

    fn lay(self, out: &mut [u8]) {
        self.held.lay(out);
        field::lay_octets(&self.octets, &mut out[offsets::KEY_OCTETS_AT..]);
    }
}

#[tactic(auto, unfolding(crate::specs::Layout::queue_of))]
impl Field for Queue {
    ghost WIDTH = { queue_width };

    const WIDTH: usize = offsets::QUEUE_WIDTH;

    ghost field_of = { queue_of };

    ghost octets_of = { queue_octets };

    fn shown(c: &[u8]) -> Queue {
        let count: u8 = field::field_at(c, offsets::OWED_COUNT_AT);
        Queue {
            answers: field::fields_at(c, offsets::ANSWERS_AT),
            count: usize::from(count),
        }
    }

    fn lay(self, out: &mut [u8]) {
        let count = (self.count % 256) as u8;
        count.lay(out);
        field::lay_each(&self.answers, &mut out[offsets::ANSWERS_AT..]);
    }
}

#[tactic(auto, unfolding(crate::specs::Layout::link_of))]
impl Field for Link {
    ghost WIDTH = { link_width };

    const WIDTH: usize = offsets::LINK_WIDTH;

    ghost field_of = { link_of };

    ghost octets_of = { link_octets };

    fn shown(c: &[u8]) -> Link {
        Link {
            onu: OnuId(field::field_at(c, offsets::ONU_AT)),
            allocs: field::field_at(c, offsets::ALLOCS_AT),
            delay: field::field_at(c, offsets::DELAY_AT),
            key: field::field_at(c, offsets::KEY_AT),
            owed: field::field_at(c, offsets::QUEUE_AT),
        }
    }

    fn lay(self, out: &mut [u8]) {
        self.onu.0.lay(out);
        self.allocs.lay(&mut out[offsets::ALLOCS_AT..]);
        self.delay.lay(&mut out[offsets::DELAY_AT..]);
        self.key.lay(&mut out[offsets::KEY_AT..]);
        self.owed.lay(&mut out[offsets::QUEUE_AT..]);
    }
}

#[tactic(auto, unfolding(crate::specs::Layout::ports_of))]
impl Field for Ports {
    ghost WIDTH = { ports_width };

    const WIDTH: usize = offsets::PORTS_WIDTH;

    ghost field_of = { ports_of };

    ghost octets_of = { ports_octets };

    fn shown(c: &[u8]) -> Ports {
        Ports {
            ids: field::fields_at(c, offsets::PORT_IDS_AT),
            lengths: field::fields_at(c, offsets::LENGTHS_AT),
            waiting: field::fields_at(c, offsets::WAITING_AT),
        }
    }

    fn lay(self, out: &mut [u8]) {
        field::lay_each(&self.ids, out);
        field::lay_each(&self.lengths, &mut out[offsets::LENGTHS_AT..]);
        field::lay_each(&self.waiting, &mut out[offsets::WAITING_AT..]);
    }
}
