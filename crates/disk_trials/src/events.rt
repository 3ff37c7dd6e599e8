//! What happened on a disk, and what that left.
ghost use Rattle.std.specs.Prelude.{◌≡◌};
ghost use Rattle.disk_trials.specs.Events.{at, left, sure, mentions, settled_is};

/// What happened on a disk.
#[derive(Drop)]
pub enum Event {
    /// A name was taken away; then another one, or the same, was given to this file, or to none.
    Named(String, String, Option<u64>),

    /// These bytes of a file were made sure of.
    Settled(u64, Vec<u8>),

    /// The names were made sure of.
    SettledNames,
}

/// The file that has a name, after these events, the last of them first.
pub fn at(events: &[Event], name: &str) -> Option<u64>
    ensures { result ≡ at events.now (0, name.now) }
{
    let Some((event, before)) = events.split_first() else {
        return None;
    };
    match event {
        Event::Named(from, to, file) => {
            if name == to.as_str() {
                *file
            } else if name == from.as_str() {
                None
            } else {
                at(before, name)
            }
        }
        Event::Settled(_, _) | Event::SettledNames => at(before, name),
    }
}

/// Whether a crash may leave this file, or none, at a name.
pub fn may_leave(events: &[Event], name: &str, file: Option<u64>) -> bool
    ensures { result ≡ left events.now (0, name.now) file }
{
    let Some((event, before)) = events.split_first() else {
        return file == None;
    };
    match event {
        Event::Named(from, to, named) => {
            let is_here = if name == to.as_str() {
                file == *named
            } else {
                name == from.as_str() && file == None
            };
            is_here || may_leave(before, name, file)
        }
        Event::Settled(_, _) => may_leave(before, name, file),
        Event::SettledNames => file == at(before, name),
    }
}

/// The bytes of a file that were made sure of.
pub fn sure(events: &[Event], file: u64) -> Option<&[u8]>
    ensures { settled_is result (sure events.now file) }
{
    let Some((event, before)) = events.split_first() else {
        return None;
    };
    match event {
        Event::Settled(settled, bytes) => {
            if file == *settled {
                Some(bytes.as_slice())
            } else {
                sure(before, file)
            }
        }
        Event::Named(_, _, _) | Event::SettledNames => sure(before, file),
    }
}

/// Whether a file ever had a name.
pub fn mentions(events: &[Event], file: u64) -> bool
    ensures { result ≡ mentions events.now file }
{
    let Some((event, before)) = events.split_first() else {
        return false;
    };
    match event {
        Event::Named(_, _, named) => Some(file) == *named || mentions(before, file),
        Event::Settled(_, _) | Event::SettledNames => mentions(before, file),
    }
}
