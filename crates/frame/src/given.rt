// Answer 3: the lengths of the lent buffers.
ghost use Rattle.std.specs.Prelude.{◌≡◌};
ghost use Rattle.frame.specs.Given.{enough};

pub const REPLY_OCTETS: usize = series::BURSTS_A_FRAME * ploam::MESSAGE_OCTETS;

#[tactic(auto, unfolding(crate::specs::Given::enough))]
pub(crate) fn enough(
    frame: usize,
    memory: usize,
    plan: usize,
    replies: usize,
    deliveries: usize,
) -> bool
    ensures { result ≡ enough frame memory plan replies deliveries }
{
    payload::MEMORY_BYTES <= memory
        && plan::PLAN_NUMBERS <= plan
        && REPLY_OCTETS <= replies
        && payload::MEMORY_BYTES <= deliveries
        && frame <= deliveries - payload::MEMORY_BYTES
}
