//! The numbers of a record, where an accepted record can hold them.
ghost use Rattle.std.specs.Prelude.{◌≡◌, ℕ, ◌*◌, ◌<◌, ◌≤◌, ◌↔◌, IsSome, IfSome, length, slice_index, sum};
ghost use Rattle.race_model.specs.Prelude.{roll_at, mean_of, whole};
ghost use Rattle.certificate.specs.RecordNumbers.{plays_of, shares_of};

use db_layout::RecordView;
use fixed_fraction::{Scaled, Spread};
use legal_plays::Roll;

/// The mean of a record; none exactly where it is over 22 rolls.
pub fn mean_in(view: &RecordView<'_>) -> Option<Scaled>
    ensures some { IsSome result ↔ (mean_of view.now ≤ 22 * whole) }
    ensures value { IfSome result (λ mean. mean ≡ mean_of view.now) }
{
    Scaled::new(view.mean())
}

/// What stands in a record for the rolls 0 to 20.
pub fn plays_in(view: &RecordView<'_>) -> [u16; 21]
    ensures { result ≡ plays_of view.now }
{
    plays_by(|roll| view.play(roll))
}

/// What is said of the rolls 0 to 20.
pub fn plays_by<F: Fn(Roll) -> u16>(play: F) -> [u16; 21]
    requires { F.IsAlwaysCallable play }
    ensures each { (i : ℕ) → i < 21 → F.post play (roll_at i) (slice_index result i) }
    ensures len { length result ≡ 21 }
{
    let mut plays = [0; 21];
    for index in 0..21 {
        plays[usize::from(index)] = play(Roll::from_index(index).unwrap());
    }
    plays
}

/// The shares of a record; none exactly where they don't add up to the whole.
pub fn spread_in(view: &RecordView<'_>) -> Option<Spread>
    ensures some { IsSome result ↔ (sum (shares_of view.now) ≡ whole) }
    ensures value { IfSome result (λ spread. spread ≡ shares_of view.now) }
{
    Spread::new(shares_in(view))
}

/// What stands in a record for the shares of 0 to 22 rolls.
fn shares_in(view: &RecordView<'_>) -> [u128; 23]
    ensures { result ≡ shares_of view.now }
{
    let mut shares = [0; 23];
    for k in 0..23 {
        shares[usize::from(k)] = view.spread(k);
    }
    shares
}
