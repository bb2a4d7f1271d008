// The vectors of the integrity check: FIPS 197, RFC 4493 and G.987.3, Appendix IV.4 to IV.10, and the three messages that
// a station sends. Each line is what was computed, to be compared with what the documents print.
use cmac::Prepared;
use ids::OnuId;
use integrity::Direction;
use ploam::{AllocChange, Completion, Content, Message, SerialNumber};
use ploamu::UpstreamMessage;
use std::io;

fn text(rt: &impl Print, s: &str) -> io::Result<()> {
    rt.print(s)
}

fn octet(rt: &impl Print, b: u8) -> io::Result<()> {
    print!(rt; "{b:02x}")
}

fn number(rt: &impl Print, n: u16) -> io::Result<()> {
    print!(rt; "{n:04x}")
}

fn truth(rt: &impl Print, b: bool) -> io::Result<()> {
    if b { text(rt, " yes") } else { text(rt, " no") }
}

fn hex(rt: &impl Print, m: &[u8]) -> io::Result<()> {
    for b in m {
        octet(rt, *b)?;
    }
    Ok(())
}

fn line(rt: &impl Print, name: &str, m: &[u8]) -> io::Result<()> {
    text(rt, name)?;
    text(rt, " ")?;
    hex(rt, m)?;
    text(rt, "\n")
}

fn block(rt: &impl Print, name: &str, key: &[u8; 16], input: &[u8; 16]) -> io::Result<()> {
    let r = aes::encrypt(*key, *input);
    line(rt, name, &r)
}

fn mac(rt: &impl Print, name: &str, key: &[u8; 16], m: &[u8]) -> io::Result<()> {
    let r = cmac::mac_once(*key, m);
    line(rt, name, &r)
}

fn fips_197(rt: &impl Print) -> io::Result<()> {
    block(
        rt,
        "FIPS 197 B",
        b"\x2b\x7e\x15\x16\x28\xae\xd2\xa6\xab\xf7\x15\x88\x09\xcf\x4f\x3c",
        b"\x32\x43\xf6\xa8\x88\x5a\x30\x8d\x31\x31\x98\xa2\xe0\x37\x07\x34",
    )?;
    block(
        rt,
        "FIPS 197 C.1",
        b"\x00\x01\x02\x03\x04\x05\x06\x07\x08\x09\x0a\x0b\x0c\x0d\x0e\x0f",
        b"\x00\x11\x22\x33\x44\x55\x66\x77\x88\x99\xaa\xbb\xcc\xdd\xee\xff",
    )
}

fn rfc_4493(rt: &impl Print) -> io::Result<()> {
    mac(
        rt,
        "RFC 4493 1",
        b"\x2b\x7e\x15\x16\x28\xae\xd2\xa6\xab\xf7\x15\x88\x09\xcf\x4f\x3c",
        b"",
    )?;
    mac(
        rt,
        "RFC 4493 2",
        b"\x2b\x7e\x15\x16\x28\xae\xd2\xa6\xab\xf7\x15\x88\x09\xcf\x4f\x3c",
        b"\x6b\xc1\xbe\xe2\x2e\x40\x9f\x96\xe9\x3d\x7e\x11\x73\x93\x17\x2a",
    )?;
    mac(
        rt,
        "RFC 4493 3",
        b"\x2b\x7e\x15\x16\x28\xae\xd2\xa6\xab\xf7\x15\x88\x09\xcf\x4f\x3c",
        b"\x6b\xc1\xbe\xe2\x2e\x40\x9f\x96\xe9\x3d\x7e\x11\x73\x93\x17\x2a\xae\x2d\x8a\x57\x1e\x03\xac\x9c\x9e\xb7\x6f\xac\x45\xaf\x8e\x51\x30\xc8\x1c\x46\xa3\x5c\xe4\x11",
    )?;
    mac(
        rt,
        "RFC 4493 4",
        b"\x2b\x7e\x15\x16\x28\xae\xd2\xa6\xab\xf7\x15\x88\x09\xcf\x4f\x3c",
        b"\x6b\xc1\xbe\xe2\x2e\x40\x9f\x96\xe9\x3d\x7e\x11\x73\x93\x17\x2a\xae\x2d\x8a\x57\x1e\x03\xac\x9c\x9e\xb7\x6f\xac\x45\xaf\x8e\x51\x30\xc8\x1c\x46\xa3\x5c\xe4\x11\xe5\xfb\xc1\x19\x1a\x0a\x52\xef\xf6\x9f\x24\x45\xdf\x4f\x9b\x17\xad\x2b\x41\x7b\xe6\x6c\x37\x10",
    )
}

// A block of counter mode.
fn counter(rt: &impl Print, key: &[u8; 16], count: &[u8; 16], input: &[u8; 16]) -> io::Result<()> {
    let pad = aes::load(aes::encrypt(*key, *count));
    let r = aes::store(aes::add(pad, aes::load(*input)));
    hex(rt, &r)
}

fn downstream_encryption(rt: &impl Print) -> io::Result<()> {
    text(rt, "IV.4 ")?;
    counter(
        rt,
        b"\x11\x22\x33\x44\x55\x66\x77\x88\x99\xaa\xbb\xcc\xdd\xee\xff\x00",
        b"\x00\x04\x0a\x0e\x16\x0d\x00\x78\x00\x04\x0a\x0e\x16\x0d\x00\x78",
        b"\x00\x01\x02\x03\x04\x05\x06\x07\x08\x09\x0a\x0b\x0c\x0d\x0e\x0f",
    )?;
    counter(
        rt,
        b"\x11\x22\x33\x44\x55\x66\x77\x88\x99\xaa\xbb\xcc\xdd\xee\xff\x00",
        b"\x00\x04\x0a\x0e\x16\x0d\x00\x78\x00\x04\x0a\x0e\x16\x0d\x00\x79",
        b"\x10\x11\x12\x13\x14\x15\x16\x17\x18\x19\x1a\x1b\x1c\x1d\x1e\x1f",
    )?;
    counter(
        rt,
        b"\x11\x22\x33\x44\x55\x66\x77\x88\x99\xaa\xbb\xcc\xdd\xee\xff\x00",
        b"\x00\x04\x0a\x0e\x16\x0d\x00\x78\x00\x04\x0a\x0e\x16\x0d\x00\x7a",
        b"\x20\x21\x22\x23\x24\x25\x26\x27\x28\x29\x2a\x2b\x2c\x2d\x2e\x2f",
    )?;
    counter(
        rt,
        b"\x11\x22\x33\x44\x55\x66\x77\x88\x99\xaa\xbb\xcc\xdd\xee\xff\x00",
        b"\x00\x04\x0a\x0e\x16\x0d\x00\x78\x00\x04\x0a\x0e\x16\x0d\x00\x7b",
        b"\x30\x31\x32\x33\x34\x35\x36\x37\x38\x39\x3a\x3b\x3c\x3d\x3e\x3f",
    )?;
    text(rt, "\n")
}

// The second half of a counter block is the complement of the first; the document prints one digit too many.
fn upstream_encryption(rt: &impl Print) -> io::Result<()> {
    text(rt, "IV.5 ")?;
    counter(
        rt,
        b"\x11\x22\x33\x44\x55\x66\x77\x88\x99\xaa\xbb\xcc\xdd\xee\xff\x00",
        b"\x00\x04\x0a\x0e\x16\x0d\x09\x7c\xff\xfb\xf5\xf1\xe9\xf2\xf6\x83",
        b"\x00\x01\x02\x03\x04\x05\x06\x07\x08\x09\x0a\x0b\x0c\x0d\x0e\x0f",
    )?;
    counter(
        rt,
        b"\x11\x22\x33\x44\x55\x66\x77\x88\x99\xaa\xbb\xcc\xdd\xee\xff\x00",
        b"\x00\x04\x0a\x0e\x16\x0d\x09\x7c\xff\xfb\xf5\xf1\xe9\xf2\xf6\x84",
        b"\x10\x11\x12\x13\x14\x15\x16\x17\x18\x19\x1a\x1b\x1c\x1d\x1e\x1f",
    )?;
    counter(
        rt,
        b"\x11\x22\x33\x44\x55\x66\x77\x88\x99\xaa\xbb\xcc\xdd\xee\xff\x00",
        b"\x00\x04\x0a\x0e\x16\x0d\x09\x7c\xff\xfb\xf5\xf1\xe9\xf2\xf6\x85",
        b"\x20\x21\x22\x23\x24\x25\x26\x27\x28\x29\x2a\x2b\x2c\x2d\x2e\x2f",
    )?;
    counter(
        rt,
        b"\x11\x22\x33\x44\x55\x66\x77\x88\x99\xaa\xbb\xcc\xdd\xee\xff\x00",
        b"\x00\x04\x0a\x0e\x16\x0d\x09\x7c\xff\xfb\xf5\xf1\xe9\xf2\xf6\x86",
        b"\x30\x31\x32\x33\x34\x35\x36\x37\x38\x39\x3a\x3b\x3c\x3d\x3e\x3f",
    )?;
    text(rt, "\n")
}

fn derived(rt: &impl Print, name: &str, key: [u8; 16], m: &[u8]) -> io::Result<[u8; 16]> {
    let r = cmac::mac_once(key, m);
    line(rt, name, &r)?;
    Ok(r)
}

fn key_derivation(rt: &impl Print) -> io::Result<()> {
    let sk = derived(
        rt,
        "IV.6 SK",
        *b"\x11\x22\x33\x44\x55\x66\x77\x88\x99\xaa\xbb\xcc\xdd\xee\xff\x00",
        b"\x56\x4e\x44\x52\x00\x11\x22\x33\x4f\x4c\x54\x23\x44\x55\x66\x77SessionK",
    )?;
    derived(rt, "IV.6 OMCI_IK", sk, b"OMCIIntegrityKey")?;
    derived(rt, "IV.6 PLOAM_IK", sk, b"PLOAMIntegrtyKey")?;
    derived(rt, "IV.6 KEK", sk, b"KeyEncryptionKey")?;
    Ok(())
}

fn ploam_ik() -> [u8; 16] {
    *b"\xe2\x56\xce\x76\x78\x5c\x78\x71\x7c\x7b\x30\x44\xab\x28\xe2\xcd"
}

fn change(rt: &impl Print, c: AllocChange) -> io::Result<()> {
    match c {
        AllocChange::Assign => text(rt, " assigned"),
        AllocChange::Deallocate => text(rt, " deallocated"),
        AllocChange::OtherChange => text(rt, " reserved"),
    }
}

fn content(rt: &impl Print, c: Content) -> io::Result<()> {
    match c {
        Content::AssignAllocId(alloc, c) => {
            text(rt, " Assign_Alloc-ID ")?;
            number(rt, alloc.0)?;
            change(rt, c)
        }
        _ => text(rt, " another message"),
    }
}

fn fields(rt: &impl Print, m: Message) -> io::Result<()> {
    text(rt, "IV.7 ONU-ID ")?;
    number(rt, m.address.0)?;
    text(rt, " SeqNo ")?;
    octet(rt, m.seq)?;
    let c = m.content;
    content(rt, c)
}

fn downstream_message(rt: &impl Print, usual: Prepared, installed: Prepared) -> io::Result<()> {
    let m =
        b"\x00\x13\x0a\x03\x04\x45\x01\x00\x00\x00\x00\x00\x00\x00\x00\x00\x00\x00\x00\x00\x00\x00\x00\x00\x00\x00\x00\x00\x00\x00\x00\x00\x00\x00\x00\x00\x00\x00\x00\x00\x46\x39\x87\x56\x28\x08\x14\xe6";
    match ploam::reading::read(m) {
        Some(message) => fields(rt, message),
        None => text(rt, "short"),
    }?;
    text(rt, ", genuine under PLOAM_IK:")?;
    truth(rt, integrity::genuine(usual, installed, m))?;
    text(rt, ", under the default key:")?;
    truth(rt, integrity::genuine(usual, usual, m))?;
    text(rt, "\n")?;
    let mic = cmac::mac64(
        installed,
        b"\x01\x00\x13\x0a\x03\x04\x45\x01\x00\x00\x00\x00\x00\x00\x00\x00\x00\x00\x00\x00\x00\x00\x00\x00\x00\x00\x00\x00\x00\x00\x00\x00\x00\x00\x00\x00\x00\x00\x00\x00\x00",
    );
    line(rt, "IV.7", &mic)
}

fn upstream_message(rt: &impl Print, installed: Prepared) -> io::Result<()> {
    let mic = cmac::mac64(
        installed,
        b"\x02\x00\x13\x10\x00\x02\x00\x00\x00\x00\x00\x00\x00\x00\x00\x00\x00\x00\x00\x00\x00\x00\x00\x00\x00\x00\x00\x00\x00\x00\x00\x00\x00\x00\x00\x00\x00\x00\x00\x00\x00",
    );
    line(rt, "IV.8", &mic)?;
    text(rt, "IV.8 upstream:")?;
    truth(
        rt,
        integrity::mic_right(
            installed,
            Direction::Upstream,
            b"\x00\x13\x10\x00\x02\x00\x00\x00\x00\x00\x00\x00\x00\x00\x00\x00\x00\x00\x00\x00\x00\x00\x00\x00\x00\x00\x00\x00\x00\x00\x00\x00\x00\x00\x00\x00\x00\x00\x00\x00\x68\xae\x4d\xd7\x75\x55\x0a\xcb",
        ),
    )?;
    text(rt, ", downstream:")?;
    truth(
        rt,
        integrity::mic_right(
            installed,
            Direction::Downstream,
            b"\x00\x13\x10\x00\x02\x00\x00\x00\x00\x00\x00\x00\x00\x00\x00\x00\x00\x00\x00\x00\x00\x00\x00\x00\x00\x00\x00\x00\x00\x00\x00\x00\x00\x00\x00\x00\x00\x00\x00\x00\x68\xae\x4d\xd7\x75\x55\x0a\xcb",
        ),
    )?;
    text(rt, "\n")
}

fn key_report(rt: &impl Print) -> io::Result<()> {
    block(
        rt,
        "IV.9 AES-ECB",
        b"\x6f\x9c\x99\xb8\x36\x17\x68\x93\x7e\x45\x3b\x16\x5f\x60\x97\x10",
        b"\x11\x22\x33\x44\x55\x66\x77\x88\x99\xaa\xbb\xcc\xdd\xee\xff\x00",
    )?;
    mac(
        rt,
        "IV.9 AES-CMAC",
        b"\x6f\x9c\x99\xb8\x36\x17\x68\x93\x7e\x45\x3b\x16\x5f\x60\x97\x10",
        b"\x11\x22\x33\x44\x55\x66\x77\x88\x99\xaa\xbb\xcc\xdd\xee\xff\x00\x33\x31\x34\x31\x35\x39\x32\x36\x35\x33\x35\x38\x39\x37\x39\x33",
    )
}

// The first 32 bits.
fn omci_message(rt: &impl Print) -> io::Result<()> {
    let r = cmac::mac_once(
        *b"\x18\x4b\x8a\xd4\xd1\xac\x4a\xf4\xdd\x4b\x33\x9e\xcc\x0d\x33\x70",
        b"\x01\x80\x00\x49\x0a\x01\x00\x00\x00\x00\x80\x00\x00\x00\x00\x00\x00\x00\x00\x00\x00\x00\x00\x00\x00\x00\x00\x00\x00\x00\x00\x00\x00\x00\x00\x00\x00\x00\x00\x00\x00\x00\x00\x00\x28",
    );
    let first = [r[0], r[1], r[2], r[3]];
    line(rt, "IV.10", &first)
}

fn written(
    rt: &impl Print,
    name: &str,
    usual: Prepared,
    installed: Prepared,
    message: UpstreamMessage,
) -> io::Result<()> {
    let id = *b"0123456789abcdefghijklmnopqrstuvwxyz";
    let mut target = [0u8; 48];
    let answer = ploamu::writing::write(usual, installed, message, id, &mut target);
    if answer.number() == 0 {
        line(rt, name, &target)
    } else {
        text(rt, "unfit\n")
    }
}

fn station_messages(rt: &impl Print, usual: Prepared, installed: Prepared) -> io::Result<()> {
    let serial = SerialNumber {
        vendor: 0x564e4452,
        vssn: 0x00112233,
    };
    written(
        rt,
        "Serial_Number_ONU",
        usual,
        installed,
        UpstreamMessage::SerialNumberOnu(serial, 119440),
    )?;
    written(
        rt,
        "Registration",
        usual,
        installed,
        UpstreamMessage::Registration(OnuId(0x13), 3),
    )?;
    written(
        rt,
        "Acknowledgement",
        usual,
        installed,
        UpstreamMessage::Acknowledgement(OnuId(0x13), 7, Completion::ParameterError),
    )?;
    written(
        rt,
        "ONU-ID 1024:",
        usual,
        installed,
        UpstreamMessage::Acknowledgement(OnuId(1024), 7, Completion::Ok),
    )
}

pub fn run(rt: &impl Print) -> io::Result<()> {
    let usual = integrity::default_key();
    let installed = cmac::prepare(ploam_ik());
    fips_197(rt)?;
    rfc_4493(rt)?;
    downstream_encryption(rt)?;
    upstream_encryption(rt)?;
    key_derivation(rt)?;
    downstream_message(rt, usual, installed)?;
    upstream_message(rt, installed)?;
    key_report(rt)?;
    omci_message(rt)?;
    station_messages(rt, usual, installed)
}
