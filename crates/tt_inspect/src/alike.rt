//! Teachers whose names are nearly the same, as if one was typed in two ways.

ghost use Rattle.std.specs.Prelude.{◌<◌, length, IfSome};
ghost use Rattle.tt_instance.specs.Courses.{teachers};

use std::alloc::AllocError;
use tt_inspect_words::Name;
use tt_instance::Instance;

/// The maximum number of bytes of a name that is compared.
const MAX_COMPARED: usize = 64;

/// The maximum number of lines.
const MAX_LINES: u64 = 8;

/// The letters and digits of a name, the letters of ASCII in lower case; zeros follow.
#[derive(Clone, Copy)]
struct Key([u8; MAX_COMPARED]);

impl Key {
    /// Returns the key of a name; `None` if it is too long, or has neither letters nor digits.
    fn of(name: &[u8]) -> Option<Key> {
        if name.len() > MAX_COMPARED {
            return None;
        }
        let mut key = [0; MAX_COMPARED];
        let mut len: usize = 0;
        for byte in name {
            // Each byte of a letter beyond ASCII counts.
            let tells_apart = byte.is_ascii_alphanumeric() || !byte.is_ascii();
            if tells_apart && len < MAX_COMPARED {
                key[len] = byte.to_ascii_lowercase();
                len += 1;
            }
        }
        if len == 0 { None } else { Some(Key(key)) }
    }

    fn is(&self, other: &Key) -> bool {
        self.0.as_slice() == other.0.as_slice()
    }
}

/// Returns the first teacher before another one whose name has the same letters and digits, if there is one.
fn alike_before(instance: &Instance<'_>, teacher: u32) -> Option<u32>
    requires { teacher < length (teachers instance.now) }
    ensures { IfSome result (λ other. other < length (teachers instance.now)) }
{
    let key = Key::of(instance.teacher_name(teacher))?;
    for other in 0..teacher {
        if let Some(found) = Key::of(instance.teacher_name(other))
            && found.is(&key)
        {
            return Some(other);
        }
    }
    None
}

/// Appends a line for each teacher whose name is like that of an earlier one, and not all of them if there are many.
pub fn put_alike(text: &mut String, instance: &Instance<'_>) -> Result<(), AllocError> {
    let mut lines: u64 = 0;
    for teacher in 0..instance.teachers() {
        if let Some(other) = alike_before(instance, teacher) {
            if lines == MAX_LINES {
                return text.push_str("look at: more teachers are alike\n");
            }
            let first = Name {
                bytes: instance.teacher_name(other),
            };
            let second = Name {
                bytes: instance.teacher_name(teacher),
            };
            writeln!(text, "look at: alike: \"{first}\", \"{second}\"")?;
            lines = lines.saturating_add(1);
        }
    }
    Ok(())
}
