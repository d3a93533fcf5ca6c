// Numbers by level and by offset, 0 outside their ranges.
ghost use Rattle.std.specs.Prelude.{◌≡◌, ◌+◌, ◌*◌, ◌≤◌, min, max, ◌&&◌, nat_le, unsigned_abs};
ghost use Rattle.metric.specs.Model.{at_level, at_offset};

// Levels go from 1 to this, and offsets stay below it.
pub(crate) const LEVELS: u32 = 1024;

// Whether a number is a level.
pub(crate) fn is_level(level: u32) -> bool
    ensures { result ≡ (nat_le 1 level && nat_le level 1024) }
{
    1 <= level && level <= LEVELS
}

// A weight that every level has.
pub(crate) fn at_every_level(level: u32, weight: u32) -> u32
    ensures { result ≡ at_level level weight }
{
    if is_level(level) { weight } else { 0 }
}

// The greater and the lesser absolute value of an offset, each times its own weight.
pub(crate) fn by_greater_and_lesser(columns: i32, rows: i32, greater: u32, lesser: u32) -> u32
    requires { (greater ≤ 1000) × (lesser ≤ 1000) }
    ensures { result ≡ at_offset (unsigned_abs columns) (unsigned_abs rows) (greater * max (unsigned_abs columns) (unsigned_abs rows) + lesser * min (unsigned_abs columns) (unsigned_abs rows)) }
{
    let x = columns.unsigned_abs();
    let y = rows.unsigned_abs();
    if x < LEVELS && y < LEVELS {
        greater * x.max(y) + lesser * x.min(y)
    } else {
        0
    }
}
