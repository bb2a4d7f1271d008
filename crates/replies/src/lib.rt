// The messages of a frame's planned PLOAMu bursts, written into a lent buffer: reply k stands in its 48 octets from
// octet 48 k on.
#![tactic(auto)]

ghost use Rattle.std.specs.Prelude.{Bool, ◌≡◌, ◌*◌, ◌≤◌, ◌<◌, ◌^◌, length};
ghost use Rattle.ploam.specs.Layout.{message_octets};
ghost use Rattle.replies.specs.Replies.{Keyed, wrote, RepliesLeft, replies_from, Replied};

pub mod replying;

use cmac::Prepared;
use ploam::MESSAGE_OCTETS;
use station::Station;

fn write_reply(usual: Prepared, installed: Prepared, s: Station, delay: u32, target: &mut [u8])
    requires { Keyed usual installed s.link.key }
    ensures { target.new ≡ wrote s delay target.old }
{
    match replying::reply_of(s, delay) {
        None => {}
        Some(message) => {
            ploamu::writing::write(usual, installed, message, s.registration, target);
        }
    }
}

fn write_each(
    usual: Prepared,
    installed: Prepared,
    s: Station,
    n: usize,
    delay: u32,
    replies: &mut [u8],
) -> Station
    requires { (Keyed usual installed s.link.key) × (message_octets * n ≤ length replies.old) × (n < 2 ^ 63) }
    ensures { record { station = result; octets = replies.new } ≡ replies_from s delay replies.old 0 n }
{
    let mut next = s;
    for i in 0..n {
        let at = MESSAGE_OCTETS * i;
        write_reply(
            usual,
            installed,
            next,
            delay,
            &mut replies[at..at + MESSAGE_OCTETS],
        );
        next = replying::after_reply(next);
    }
    next
}

// The replies of n planned PLOAMu bursts, as far as the buffer has room for them; past them it keeps its octets.
pub fn reply_all(s: Station, n: usize, delay: u32, replies: &mut [u8]) -> Station
    ensures { Replied s n delay replies.old (record { station = result; octets = replies.new }) }
{
    let k = n.min(replies.len() / MESSAGE_OCTETS);
    if k == 0 {
        return s;
    }
    let usual = integrity::default_key();
    let installed = messages::installed_key(usual, s.link.key);
    write_each(usual, installed, s, k, delay, replies)
}
