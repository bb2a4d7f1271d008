// AES-128 (FIPS 197) on words. Each round key is made from the one before while the blocks are worked, so that no more than one
// stands beside the key; up to eight blocks are worked side by side, and share it.
#![tactic(auto)]

ghost use Rattle.std.specs.Prelude.{◌≡◌, ℕ, min, ◌%◌, ◌<◌, ◌≤◌};
ghost use Rattle.subbytes.specs.Field.{xtime};
ghost use Rattle.aes.specs.Cipher.{aes128};
ghost use Rattle.aes.specs.Words.{octets_of, added, Joined, Loaded};
ghost use Rattle.aes.specs.OnWords.{column_on, round_on, last_column_on, last_on, turned_word_on, next_key_on, cipher_on};
ghost use Rattle.aes.specs.Blocks.{most_blocks, block_in, with_block, each};

use subbytes::substituted;

// A block, a state or a round key: the first octet is the highest of a.
#[derive(Clone, Copy)]
pub struct Words {
    pub a: u32,
    pub b: u32,
    pub c: u32,
    pub d: u32,
}

// So many blocks are worked side by side.
pub const MOST_BLOCKS: usize = 8;

// 5: of the ten rounds of a key of 128 bits the last has no MixColumns.
const ROUNDS_BEFORE_LAST: usize = 9;

pub fn join(a: u8, b: u8, c: u8, d: u8) -> u32
    ensures { Joined a b c d result }
{
    u32::from_be_bytes([a, b, c, d])
}

pub fn add(s: Words, k: Words) -> Words
    ensures { result ≡ added s k }
{
    Words {
        a: s.a ^ k.a,
        b: s.b ^ k.b,
        c: s.c ^ k.c,
        d: s.d ^ k.d,
    }
}

pub fn load(b: [u8; 16]) -> Words
    ensures { Loaded b result }
{
    Words {
        a: join(b[0], b[1], b[2], b[3]),
        b: join(b[4], b[5], b[6], b[7]),
        c: join(b[8], b[9], b[10], b[11]),
        d: join(b[12], b[13], b[14], b[15]),
    }
}

pub fn store(w: Words) -> [u8; 16]
    ensures { result ≡ octets_of w }
{
    let [a0, a1, a2, a3] = w.a.to_be_bytes();
    let [b0, b1, b2, b3] = w.b.to_be_bytes();
    let [c0, c1, c2, c3] = w.c.to_be_bytes();
    let [d0, d1, d2, d3] = w.d.to_be_bytes();
    [
        a0, a1, a2, a3, b0, b1, b2, b3, c0, c1, c2, c3, d0, d1, d2, d3,
    ]
}

// 5.2: SubWord of RotWord.
fn turned_word(d: u32) -> u32
    ensures { result ≡ turned_word_on d }
{
    join(
        substituted(d / 65536),
        substituted(d / 256),
        substituted(d),
        substituted(d / 16777216),
    )
}

fn next_key(k: Words, rc: u8) -> Words
    ensures { result ≡ next_key_on k rc }
{
    let a = k.a ^ (turned_word(k.d) ^ rc as u32 * 16777216);
    let b = k.b ^ a;
    let c = k.c ^ b;
    let d = k.d ^ c;
    Words { a, b, c, d }
}

// The round constants are the powers of x in the field.
fn doubled(rc: u8) -> u8
    ensures { result ≡ xtime rc }
{
    if rc < 128 {
        rc * 2
    } else {
        rc % 128 * 2 ^ 0x1b
    }
}

// 5.1.1 to 5.1.4 of one column: ShiftRows takes each row from another word.
fn column(a: u32, b: u32, c: u32, d: u32, k: u32) -> u32
    ensures { result ≡ column_on a b c d k }
{
    mixcolumns::row0(a / 16777216)
        ^ mixcolumns::row1(b / 65536)
        ^ mixcolumns::row2(c / 256)
        ^ mixcolumns::row3(d)
        ^ k
}

fn round(s: Words, k: Words) -> Words
    ensures { result ≡ round_on s k }
{
    Words {
        a: column(s.a, s.b, s.c, s.d, k.a),
        b: column(s.b, s.c, s.d, s.a, k.b),
        c: column(s.c, s.d, s.a, s.b, k.c),
        d: column(s.d, s.a, s.b, s.c, k.d),
    }
}

fn last_column(a: u32, b: u32, c: u32, d: u32) -> u32
    ensures { result ≡ last_column_on a b c d }
{
    join(
        substituted(a / 16777216),
        substituted(b / 65536),
        substituted(c / 256),
        substituted(d),
    )
}

fn last_round(s: Words, k: Words) -> Words
    ensures { result ≡ last_on s k }
{
    Words {
        a: last_column(s.a, s.b, s.c, s.d) ^ k.a,
        b: last_column(s.b, s.c, s.d, s.a) ^ k.b,
        c: last_column(s.c, s.d, s.a, s.b) ^ k.c,
        d: last_column(s.d, s.a, s.b, s.c) ^ k.d,
    }
}

// Block j of an array, j below eight. It is an array of words and not of blocks: the clauses of `encipher` and `cmac::tags` speak
// of all 32 (`each`, `tags_by`).
pub fn block(blocks: &[u32; 32], j: usize) -> Words
    ensures { result ≡ block_in blocks.now (j % most_blocks) }
{
    let at = j % 8 * 4;
    Words {
        a: blocks[at],
        b: blocks[at + 1],
        c: blocks[at + 2],
        d: blocks[at + 3],
    }
}

pub fn put(blocks: &mut [u32; 32], j: usize, w: Words)
    ensures { blocks.new ≡ with_block blocks.old (j % most_blocks) w }
{
    let at = j % 8 * 4;
    blocks[at] = w.a;
    blocks[at + 1] = w.b;
    blocks[at + 2] = w.c;
    blocks[at + 3] = w.d;
}

// What `work` makes of each of the first `count` blocks, eight at most, and its number.
pub fn on_each<F: Fn(usize, Words) -> Words>(count: usize, blocks: &mut [u32; 32], work: F)
    requires { (j : ℕ) (x : Words) → j < min count most_blocks → F.pre work j x }
    ensures { (f : ℕ → Words → Words)
        → ((j : ℕ) (x r : Words) → j < min count most_blocks → F.post work j x r → r ≡ f j x)
        → blocks.new ≡ each (min count most_blocks) f blocks.old }
{
    let n = at_most(count);
    for j in 0..n {
        let x = block(blocks, j);
        put(blocks, j, work(j, x));
    }
}

// As many blocks of a wish as are worked at once.
pub fn at_most(count: usize) -> usize
    ensures { (result ≡ min count most_blocks) × (result ≤ most_blocks) }
{
    count.min(MOST_BLOCKS)
}

// Merged into a loop the compiler keeps the state in a vector register, which costs a tenth.
#[inline(never)]
pub fn encipher_one(key: Words, input: Words) -> Words
    ensures { result ≡ cipher_on key input }
{
    let mut state = add(input, key);
    let mut k = key;
    let mut rc = 1;
    for _ in 0..ROUNDS_BEFORE_LAST {
        k = next_key(k, rc);
        state = round(state, k);
        rc = doubled(rc);
    }
    last_round(state, next_key(k, rc))
}

// The first `count` blocks, eight at most, each enciphered; the others are as they were. One alone stays in registers from round
// to round: in the array each round would wait for what the one before stored.
pub fn encipher(key: Words, count: usize, blocks: &mut [u32; 32])
    ensures { blocks.new ≡ each (min count most_blocks) (λ i. cipher_on key) blocks.old }
{
    let n = at_most(count);
    if n == 1 {
        let input = block(blocks, 0);
        put(blocks, 0, encipher_one(key, input));
        return;
    }
    on_each(n, blocks, |_, x| add(x, key));
    let mut k = key;
    let mut rc = 1;
    for _ in 0..ROUNDS_BEFORE_LAST {
        k = next_key(k, rc);
        on_each(n, blocks, |_, x| round(x, k));
        rc = doubled(rc);
    }
    k = next_key(k, rc);
    on_each(n, blocks, |_, x| last_round(x, k));
}

pub fn encrypt(key: [u8; 16], input: [u8; 16]) -> [u8; 16]
    ensures { result ≡ aes128 key input }
{
    store(encipher_one(load(key), load(input)))
}
