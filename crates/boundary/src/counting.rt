// How many entries of a lent list were written, in a lent buffer of one number.
ghost use Rattle.std.specs.Prelude.{◌≡◌, [], ◌∷◌, ◌≤◌, length};
ghost use Rattle.xgem.specs.Writes.{put};
ghost use Rattle.boundary.specs.Lists.{list_counts};

pub(crate) const COUNTS: usize = 1;

pub(crate) fn put_count(counts: &mut [usize], n: usize)
    requires { list_counts ≤ length counts.old }
    ensures { counts.new ≡ put counts.old (n ∷ []) }
{
    counts[0] = n;
}
