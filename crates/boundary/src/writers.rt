// The writers of HLend, allocation structures and XGEM frames. A number that its field's type cannot hold is too wide for the field;
// whether one that it holds fits, the engine's writers test.
ghost use Rattle.std.specs.Prelude.{◌≡◌};
ghost use Rattle.answers.specs.Answers.{answer_number};
ghost use Rattle.boundary.specs.Writers.{Target, hlend_in, allocation_in, xgem_frame_in};

use answers::Answer;
use ids::{AllocId, PortId};
use xgem::XgemHeader;
use xgtc::allocation::Allocation;
use xgtc::hlend::Hlend;

const NOT_WRITTEN: u8 = answers::NOT_WRITTEN;

fn written_number(answer: Answer) -> u8
    ensures { result ≡ answer_number answer }
{
    answer.number()
}

#[tactic(auto, unfolding(crate::specs::Writers::hlend_in))]
pub fn lingbarrow_write_hlend(bwmap: u32, ploam: u32, target: &mut [u8]) -> u8
    ensures { ◌≡◌ {A = Target} (record { answer = result; target = target.new }) (hlend_in bwmap ploam target.old) }
{
    let (Ok(bwmap), Ok(ploam)) = (u16::try_from(bwmap), u8::try_from(ploam)) else {
        return NOT_WRITTEN;
    };
    written_number(xgtc::hlend::write_hlend(Hlend { bwmap, ploam }, target))
}

#[tactic(auto, unfolding(crate::specs::Writers::allocation_in))]
pub fn lingbarrow_write_allocation(
    alloc: u32,
    dbru: u32,
    ploamu: u32,
    start: u32,
    grant: u32,
    fwi: u32,
    profile: u32,
    target: &mut [u8],
) -> u8
    ensures { ◌≡◌ {A = Target} (record { answer = result; target = target.new }) (allocation_in alloc dbru ploamu start grant fwi profile target.old) }
{
    if 2 <= dbru || 2 <= ploamu || 2 <= fwi {
        return NOT_WRITTEN;
    }
    let (Ok(alloc), Ok(start)) = (u16::try_from(alloc), u16::try_from(start)) else {
        return NOT_WRITTEN;
    };
    let (Ok(grant), Ok(profile)) = (u16::try_from(grant), u8::try_from(profile)) else {
        return NOT_WRITTEN;
    };
    let a = Allocation {
        alloc: AllocId(alloc),
        dbru: dbru == 1,
        ploamu: ploamu == 1,
        start,
        grant,
        fwi: fwi == 1,
        profile,
    };
    written_number(xgtc::allocation::write_allocation(a, target))
}

#[tactic(auto, unfolding(crate::specs::Writers::xgem_frame_in))]
pub fn lingbarrow_write_xgem_frame(
    key: u32,
    port: u32,
    options: u32,
    last: u32,
    sdu: &[u8],
    target: &mut [u8],
) -> u8
    ensures { ◌≡◌ {A = Target} (record { answer = result; target = target.new }) (xgem_frame_in key port options last sdu.now target.old) }
{
    if 2 <= last {
        return NOT_WRITTEN;
    }
    let (Ok(key), Ok(port)) = (u8::try_from(key), u16::try_from(port)) else {
        return NOT_WRITTEN;
    };
    let x = XgemHeader {
        pli: 0,
        key,
        port: PortId(port),
        options,
        last: last == 1,
    };
    written_number(xgem::write_xgem_frame(x, sdu, target))
}
