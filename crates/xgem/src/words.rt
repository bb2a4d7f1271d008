// Protected words as octets of a slice, the most significant first.
ghost use Rattle.std.specs.Prelude.{◌≡◌, cond, leb, length, take};
ghost use Rattle.octets.specs.Octets.{value, octets};
ghost use Rattle.xgem.specs.Writes.{wrote};

use answers::Answer;
use octets::Number;

// The word at the start of a slice, 0 where the slice is too short: for walks, which read before they ask.
pub fn word_ahead(s: &[u8]) -> u64
    ensures { result ≡ cond (leb 8 (length s.now)) (value (take 8 s.now)) 0 }
{
    u64::read(s)
}

// A word at the start of a target, where its fields fit and the target has room.
pub fn write<T: Number>(fits: bool, word: T, target: &mut [u8]) -> Answer
    ensures { record { answer = result; target = target.new } ≡ wrote fits (octets T.WIDTH (T.number word)) target.old }
{
    if !fits || target.len() < T::WIDTH {
        return Answer::NotWritten;
    }
    word.put(target);
    Answer::Done
}
