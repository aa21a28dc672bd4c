// An argument as the number of an entry.
ghost use Rattle.std.specs.Prelude.{◌≡◌};
ghost use Rattle.arguments.specs.Index.{index_below};

pub fn index_below(a: i32, limit: u8) -> Option<u8>
    ensures { result ≡ index_below a limit }
{
    u8::try_from(a).ok().filter(|n| *n < limit)
}
