// Sides that no table made: one number of a side at a time, as a call says.
use goals::{SideRefusal, Which};
use places::Side;

// A number of a side, of a place where there are 64, and what it becomes.
#[derive(Clone, Copy)]
pub(crate) enum Field {
    S(u8),
    Count(u8),
    Accepts(u64),
    Present(u8, u16),
    Absent(u8, u16),
    Follow(u8, u64),
}

// Entry j becomes x; past the end none does.
fn put<T: Copy>(entries: &mut [T], j: u8, x: T) {
    if let Some(entry) = entries.get_mut(j as usize) {
        *entry = x;
    }
}

impl Field {
    // By the number that a call gives a field; main.rt says so too.
    pub(crate) fn of(number: u8, j: u8, value: u64) -> Option<Field> {
        let [.., high, low] = value.to_be_bytes();
        let mask = u16::from_be_bytes([high, low]);
        match number {
            0 => Some(Field::S(low)),
            1 => Some(Field::Count(low)),
            2 => Some(Field::Accepts(value)),
            3 => Some(Field::Present(j, mask)),
            4 => Some(Field::Absent(j, mask)),
            5 => Some(Field::Follow(j, value)),
            _ => None,
        }
    }
}

// A side with one number forged, or none.
pub(crate) fn side(side: &mut Side, field: Option<Field>) {
    match field {
        Some(Field::S(s)) => side.s = s,
        Some(Field::Count(count)) => side.count = count,
        Some(Field::Accepts(set)) => side.accepts = set,
        Some(Field::Present(j, mask)) => put(&mut side.present, j, mask),
        Some(Field::Absent(j, mask)) => put(&mut side.absent, j, mask),
        Some(Field::Follow(j, set)) => put(&mut side.follow, j, set),
        None => {}
    }
}

// A reason why there are no sides.
pub(crate) fn why(side: u16, number: u8) -> SideRefusal {
    let side = match side {
        1 => Which::Left,
        2 => Which::Right,
        _ => Which::Both,
    };
    SideRefusal { side, number }
}
