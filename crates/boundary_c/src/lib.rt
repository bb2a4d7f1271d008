// The calls for C and Rust as a static library: each export is boundary's call of the same name, with the same clauses. A crate is a
// library or a static library, and those above boundary cite it.
#![tactic(auto)]

ghost use Rattle.std.specs.Prelude.{◌≡◌};
ghost use Rattle.frame.specs.Given.{arriving, lending};
ghost use Rattle.boundary.specs.Calls.{StateIs, in_range_on, lost_on, add_on, remove_on, key_on, power_on_in};
ghost use Rattle.boundary.specs.Frames.{BuffersAre, PlaceIs, frame_on, place_on};
ghost use Rattle.boundary.specs.Lists.{ListIs, stretches_on, why_dark_on};
ghost use Rattle.boundary.specs.Writers.{Target, hlend_in, allocation_in, xgem_frame_in};

// A station that is powered on, in O1 with nothing held.
#[unsafe(no_mangle)]
pub extern "C" fn lingbarrow_power_on(state: &mut [u8], serial: &[u8], registration: &[u8]) -> u8
    ensures { StateIs result state.new (power_on_in state.old serial.now registration.now) }
{
    boundary::lingbarrow_power_on(state, serial, registration)
}

// Whether octets are those of a state in range.
#[unsafe(no_mangle)]
pub extern "C" fn lingbarrow_in_range(state: &[u8]) -> u8
    ensures { result ≡ in_range_on state.now }
{
    boundary::lingbarrow_in_range(state)
}

// A frame time in which no frame arrived.
#[unsafe(no_mangle)]
pub extern "C" fn lingbarrow_lost(state: &mut [u8]) -> u8
    ensures { StateIs result state.new (lost_on state.old) }
{
    boundary::lingbarrow_lost(state)
}

#[unsafe(no_mangle)]
pub extern "C" fn lingbarrow_add_port(state: &mut [u8], port: u16) -> u8
    ensures { StateIs result state.new (add_on state.old port) }
{
    boundary::lingbarrow_add_port(state, port)
}

#[unsafe(no_mangle)]
pub extern "C" fn lingbarrow_remove_port(state: &mut [u8], port: u16) -> u8
    ensures { StateIs result state.new (remove_on state.old port) }
{
    boundary::lingbarrow_remove_port(state, port)
}

#[unsafe(no_mangle)]
pub extern "C" fn lingbarrow_give_key(state: &mut [u8], key: &[u8]) -> u8
    ensures { StateIs result state.new (key_on state.old key.now) }
{
    boundary::lingbarrow_give_key(state, key)
}

// A frame has arrived. The counts are those of records in the plan, of replies, and of bytes in the deliveries.
#[unsafe(no_mangle)]
pub extern "C" fn lingbarrow_frame(
    state: &mut [u8],
    memory: &mut [u8],
    frame: &[u8],
    random_delay: u32,
    plan: &mut [u16],
    replies: &mut [u8],
    deliveries: &mut [u8],
    counts: &mut [usize],
) -> u8
    ensures { BuffersAre result state.new counts.new (lending memory.new plan.new replies.new deliveries.new) (frame_on state.old (arriving frame.now random_delay) counts.old (lending memory.old plan.old replies.old deliveries.old)) }
{
    boundary::lingbarrow_frame(
        state,
        memory,
        frame,
        random_delay,
        plan,
        replies,
        deliveries,
        counts,
    )
}

// Where delivery k of the frame stands in the frame, and its length: both 0 where it has no stretch of its own.
#[unsafe(no_mangle)]
pub extern "C" fn lingbarrow_stretch(
    state: &[u8],
    frame: &[u8],
    k: usize,
    place: &mut [usize],
) -> u8
    ensures { PlaceIs result place.new (place_on state.now frame.now k place.old) }
{
    boundary::lingbarrow_stretch(state, frame, k, place)
}

// Where each delivery of the frame stands in the frame, and its length, one after the other: both 0 where it has no stretch of its
// own. The count is how many deliveries there are.
#[unsafe(no_mangle)]
pub extern "C" fn lingbarrow_stretches(
    state: &[u8],
    frame: &[u8],
    places: &mut [usize],
    counts: &mut [usize],
) -> u8
    ensures { ListIs result places.new counts.new (stretches_on state.now frame.now places.old counts.old) }
{
    boundary::lingbarrow_stretches(state, frame, places, counts)
}

// The name of every structure of the frame's map, by its number. The count is how many structures there are.
#[unsafe(no_mangle)]
pub extern "C" fn lingbarrow_why_dark(
    state: &[u8],
    frame: &[u8],
    names: &mut [u8],
    counts: &mut [usize],
) -> u8
    ensures { ListIs result names.new counts.new (why_dark_on state.now frame.now names.old counts.old) }
{
    boundary::lingbarrow_why_dark(state, frame, names, counts)
}

#[unsafe(no_mangle)]
pub extern "C" fn lingbarrow_write_hlend(bwmap: u32, ploam: u32, target: &mut [u8]) -> u8
    ensures { ◌≡◌ {A = Target} (record { answer = result; target = target.new }) (hlend_in bwmap ploam target.old) }
{
    boundary::lingbarrow_write_hlend(bwmap, ploam, target)
}

#[unsafe(no_mangle)]
pub extern "C" fn lingbarrow_write_allocation(
    alloc: u32,
    dbru: u32,
    ploamu: u32,
    start: u32,
    grant: u32,
    fwi: u32,
    profile: u32,
    target: &mut [u8],
) -> u8
    ensures { ◌≡◌ {A = Target} (record { answer = result; target = target.new }) (allocation_in alloc dbru ploamu start grant fwi profile target.old) }
{
    boundary::lingbarrow_write_allocation(alloc, dbru, ploamu, start, grant, fwi, profile, target)
}

#[unsafe(no_mangle)]
pub extern "C" fn lingbarrow_write_xgem_frame(
    key: u32,
    port: u32,
    options: u32,
    last: u32,
    sdu: &[u8],
    target: &mut [u8],
) -> u8
    ensures { ◌≡◌ {A = Target} (record { answer = result; target = target.new }) (xgem_frame_in key port options last sdu.now target.old) }
{
    boundary::lingbarrow_write_xgem_frame(key, port, options, last, sdu, target)
}
