//! What stands between the numbers of an array, in each form of the report.
ghost use Rattle.std.specs.Prelude.{◌≡◌, ◌+◌, ◌≤◌, ◌++◌, drop, length};
ghost use Rattle.report.specs.Numbers.{separator_bytes};

/// What stands between two numbers of an array.
#[derive(Clone, Copy)]
pub(crate) enum Separator {
    /// A comma alone, as in JSON.
    Comma,
    /// A comma and a blank, as in the text form.
    CommaAndBlank,
}

impl Separator {
    /// Puts the separator so that it ends at `end`, and answers where it starts.
    #[inline]
    pub(crate) fn put(self, room: &mut [u8], end: usize) -> usize
        requires room { 2 ≤ end }
        requires within { end ≤ length room.old }
        ensures short { end ≤ result + 2 }
        ensures within { result ≤ end }
        ensures put { drop result room.new ≡ separator_bytes self ++ drop end room.old }
    {
        match self {
            Separator::Comma => {
                room[end - 1] = b',';
                end - 1
            }
            Separator::CommaAndBlank => {
                room[end - 1] = b' ';
                room[end - 2] = b',';
                end - 2
            }
        }
    }
}
