// A table of the levels: code that is given each level as a number of its own.
ghost use Rattle.std.specs.Prelude.{◌≤◌};

// What f says of level k, by a call of its own for each level, so that the compiled code has the level's numbers in it.
pub fn by_level<R, F: FnOnce(usize) -> R>(k: usize, f: F) -> R
    requires level { k ≤ 6 }
    requires callable { F.pre f k }
    ensures { F.post f k result }
{
    match k {
        0 => f(0),
        1 => f(1),
        2 => f(2),
        3 => f(3),
        4 => f(4),
        5 => f(5),
        _ => f(6),
    }
}
