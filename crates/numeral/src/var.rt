// Variable-size numbers: low 7 bits first, high bit set on all but the last byte, shortest form.
ghost use Rattle.std.specs.Prelude.{◌≡◌};
ghost use Rattle.numeral.specs.Var.{var_at};

use super::Numeral;

// The number at `at`, if it is below `limit`. What follows the first byte has its own limit, which
// falls to 1 after ten bytes at most: no run of bytes makes this long.
fn any_var(s: &[u8], at: usize, limit: u64) -> Option<Numeral>
    ensures { result ≡ var_at limit s.now at }
{
    let b = u64::from(*s.get(at)?);
    if limit <= b {
        return None;
    }
    if b < 128 {
        return Some(Numeral {
            value: b,
            next: at + 1,
        });
    }
    let low = b - 128;
    let n = any_var(s, at + 1, (limit - low - 1) / 128 + 1)?;
    if n.value == 0 {
        return None;
    }
    Some(Numeral {
        value: n.value * 128 + low,
        next: n.next,
    })
}

// The same. Most numbers have one byte or two, and those take no further call: handing the slice on to
// one would take longer than the reading.
pub fn read_var(s: &[u8], at: usize, limit: u64) -> Option<Numeral>
    ensures { result ≡ var_at limit s.now at }
{
    let b = u64::from(*s.get(at)?);
    if b < 128 {
        return (b < limit).then_some(Numeral {
            value: b,
            next: at + 1,
        });
    }
    let c = u64::from(*s.get(at + 1)?);
    let value = c * 128 + (b - 128);
    if 0 < c && c < 128 && value < limit {
        return Some(Numeral {
            value,
            next: at + 2,
        });
    }
    any_var(s, at, limit)
}
