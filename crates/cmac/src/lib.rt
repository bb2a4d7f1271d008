// AES-CMAC (RFC 4493) of a lent slice, and its first 64 bits, under a key that is prepared once for many messages; of up to eight
// messages of one length at once, whose blocks are enciphered side by side.
#![tactic(auto)]

ghost use Rattle.std.specs.Prelude.{◌≡◌, min, ◌+◌, ◌-◌, ◌*◌, ◌/◌, ◌<◌, ◌≤◌, ◌^◌, length, take};
ghost use Rattle.aes.specs.Words.{octets_of, words_of, added};
ghost use Rattle.cmac.specs.Mac.{padded_at, block_at, cmac};
ghost use Rattle.aes.specs.Blocks.{most_blocks, each};
ghost use Rattle.cmac.specs.Tags.{shifted_word, last_word, doubled_words, Ready, word_at, last_block_by, mac_by, mac64_by, message_of, tag_by, tags_by};

use aes::Words;

// The key, and its subkeys K1 for a whole last block and K2 for a padded one.
#[derive(Clone, Copy)]
pub struct Prepared {
    pub key: Words,
    pub whole: Words,
    pub padded: Words,
}

const NO_WORDS: Words = Words {
    a: 0,
    b: 0,
    c: 0,
    d: 0,
};

// RFC 4493, 2.3: what is added where a 1 falls out of the shift.
const RB: u32 = 0x87;

fn shifted(x: u32, next: u32) -> u32
    ensures { result ≡ shifted_word x next }
{
    x % 2147483648 * 2 + next / 2147483648 % 2
}

fn last_shifted(x: u32, first: u32) -> u32
    ensures { result ≡ last_word x first }
{
    if first / 2147483648 % 2 == 0 {
        x % 2147483648 * 2
    } else {
        x % 2147483648 * 2 ^ RB
    }
}

fn doubled(w: Words) -> Words
    ensures { result ≡ doubled_words w }
{
    Words {
        a: shifted(w.a, w.b),
        b: shifted(w.b, w.c),
        c: shifted(w.c, w.d),
        d: last_shifted(w.d, w.a),
    }
}

fn octet_at(m: &[u8], j: usize) -> u8
    ensures { result ≡ padded_at m.now j }
{
    if j < m.len() {
        m[j]
    } else if j == m.len() {
        0x80
    } else {
        0
    }
}

fn inner_word(m: &[u8], j: usize) -> u32
    requires { j + 4 ≤ length m.now }
    ensures { result ≡ word_at m.now j }
{
    aes::join(m[j], m[j + 1], m[j + 2], m[j + 3])
}

fn padded_word(m: &[u8], j: usize) -> u32
    requires { j + 4 < 2 ^ 64 }
    ensures { result ≡ word_at m.now j }
{
    aes::join(
        octet_at(m, j),
        octet_at(m, j + 1),
        octet_at(m, j + 2),
        octet_at(m, j + 3),
    )
}

fn word_at(m: &[u8], j: usize) -> u32
    requires { j + 4 < 2 ^ 64 }
    ensures { result ≡ word_at m.now j }
{
    if j + 4 <= m.len() {
        inner_word(m, j)
    } else {
        padded_word(m, j)
    }
}

// Added word by word, and not as a block: a block that is written word by word and then read whole stalls.
fn add_block(x: Words, m: &[u8], j: usize) -> Words
    requires { j + 16 < 2 ^ 64 }
    ensures { result ≡ added x (words_of (block_at m.now j)) }
{
    Words {
        a: x.a ^ word_at(m, j),
        b: x.b ^ word_at(m, j + 4),
        c: x.c ^ word_at(m, j + 8),
        d: x.d ^ word_at(m, j + 12),
    }
}

// A block before the last is never padded.
fn add_whole(x: Words, m: &[u8], j: usize) -> Words
    requires { j + 16 ≤ length m.now }
    ensures { result ≡ added x (words_of (block_at m.now j)) }
{
    Words {
        a: x.a ^ inner_word(m, j),
        b: x.b ^ inner_word(m, j + 4),
        c: x.c ^ inner_word(m, j + 8),
        d: x.d ^ inner_word(m, j + 12),
    }
}

fn blocks_before(n: usize) -> usize
    ensures { result ≡ (n - 1) / 16 }
{
    n.saturating_sub(1) / 16
}

fn add_last(key: Prepared, x: Words, m: &[u8], j: usize) -> Words
    requires { j + 16 < 2 ^ 64 }
    ensures { result ≡ added x (last_block_by key m.now j) }
{
    let subkey = if m.len() == j + 16 {
        key.whole
    } else {
        key.padded
    };
    add_block(aes::add(x, subkey), m, j)
}

// Message j of those of `size` octets that stand one behind the other.
fn message(ms: &[u8], size: usize, j: usize) -> &[u8]
    requires { j * size + size ≤ length ms.now }
    ensures { result.now ≡ message_of ms.now size j }
{
    &ms[j * size..j * size + size]
}

// The tags of `count` messages, eight at most, that stand one behind the other and share the length of the slice.
pub fn tags(key: Prepared, ms: &[u8], count: usize) -> [u32; 32]
    ensures { result ≡ tags_by key ms.now (min count most_blocks) }
{
    let mut xs = [0u32; 32];
    let n = aes::at_most(count);
    if n == 0 {
        return xs;
    }
    let size = ms.len() / n;
    let before = blocks_before(size);
    for i in 0..before {
        aes::on_each(
            n,
            &mut xs,
            |j, x| add_whole(x, message(ms, size, j), i * 16),
        );
        aes::encipher(key.key, n, &mut xs);
    }
    aes::on_each(
        n,
        &mut xs,
        |j, x| add_last(key, x, message(ms, size, j), before * 16),
    );
    aes::encipher(key.key, n, &mut xs);
    xs
}

fn tag(key: Prepared, m: &[u8]) -> Words
    ensures { result ≡ tag_by key m.now }
{
    let xs = tags(key, m, 1);
    aes::block(&xs, 0)
}

pub fn prepare(key: [u8; 16]) -> Prepared
    ensures { Ready key result }
{
    let key = aes::load(key);
    let whole = doubled(aes::encipher_one(key, NO_WORDS));
    let padded = doubled(whole);
    Prepared { key, whole, padded }
}

pub fn mac(key: Prepared, m: &[u8]) -> [u8; 16]
    ensures { result ≡ mac_by key m.now }
{
    aes::store(tag(key, m))
}

// The first 64 bits of a tag.
pub fn first_octets(w: Words) -> [u8; 8]
    ensures { result ≡ take 8 (octets_of w) }
{
    let [a0, a1, a2, a3] = w.a.to_be_bytes();
    let [b0, b1, b2, b3] = w.b.to_be_bytes();
    [a0, a1, a2, a3, b0, b1, b2, b3]
}

pub fn mac64(key: Prepared, m: &[u8]) -> [u8; 8]
    ensures { result ≡ mac64_by key m.now }
{
    first_octets(tag(key, m))
}

// Under a key that is used once.
pub fn mac_once(key: [u8; 16], m: &[u8]) -> [u8; 16]
    ensures { result ≡ cmac key m.now }
{
    mac(prepare(key), m)
}
