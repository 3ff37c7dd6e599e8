//! Fractions, means and spreads.
ghost use Rattle.std.specs.Prelude.{◌≡◌, sum_by};

use fixed_fraction::{Fraction, MOST, Scaled, Spread, WHOLE, epc, mean, pull, share, thousandths};
use std::test::Fail;

fn terms(fraction: Fraction) -> (u128, u128) {
    (fraction.numerator(), fraction.denominator())
}

#[test]
fn means_and_effective_pip_counts(rt: HostRuntime) -> Result<(), Fail> {
    let denominator = 103945637534048876111514866313854976;
    for (numerator, in_rolls, in_pips, rounded) in [
        (0, (0, 1), (0, 1), 0),
        (WHOLE, (1, 1), (49, 6), 8167),
        (
            21655341152926849189898930482053120,
            (5, 4),
            (245, 24),
            10208,
        ),
        (WHOLE / 18 * 23, (23, 18), (1127, 108), 10435),
        (WHOLE / 36 * 97, (97, 36), (4753, 216), 22005),
        (
            WHOLE / 279936 * 1953839,
            (1953839, 279936),
            (95738111, 1679616),
            57000,
        ),
        (1082767057646342459494946524102656, (1, 16), (49, 96), 510),
        (MOST, (22, 1), (539, 3), 179667),
        (1, (1, WHOLE), (49, denominator), 0),
    ] {
        let rolls = Scaled::new(numerator).ok_or("over 22 rolls")?;
        assert_eq!(rt; terms(mean(rolls)), in_rolls);
        assert_eq!(rt; terms(epc(rolls)), in_pips);
        assert_eq!(rt; thousandths(&epc(rolls)), rounded);
    }
    Ok(())
}

#[test]
fn halves_and_large_numerators(rt: HostRuntime) -> Result<(), Fail> {
    let sixteenth = Scaled::new(WHOLE / 16).ok_or("over 22 rolls")?;
    assert_eq!(rt; thousandths(&mean(sixteenth)), 63);
    let below_most = Scaled::new(MOST - 1).ok_or("over 22 rolls")?;
    assert_eq!(rt; thousandths(&epc(below_most)), 179667);
    Ok(())
}

fn shares_to_three_rolls() -> [u128; 23] {
    let mut shares = [0; 23];
    shares[1] = WHOLE / 9;
    shares[2] = WHOLE / 108 * 91;
    shares[3] = WHOLE / 108 * 5;
    shares
}

#[test]
fn shares(rt: HostRuntime) -> Result<(), Fail> {
    let spread = Spread::new(shares_to_three_rolls()).ok_or("not a whole")?;
    for (k, expected) in [
        (0, (0, 1)),
        (1, (1, 9)),
        (2, (91, 108)),
        (3, (5, 108)),
        (23, (0, 1)),
    ] {
        assert_eq!(rt; terms(share(&spread, k)), expected, "at {k} rolls");
    }
    Ok(())
}

// 1 for a double and 2 for each other roll
const WEIGHTS: [u8; 21] = [
    1, 2, 1, 2, 2, 1, 2, 2, 2, 1, 2, 2, 2, 2, 1, 2, 2, 2, 2, 2, 1,
];

// the parts of 21 rolls: the double aces lead to the one, and all other rolls to the other
fn parts(aces: Scaled, others: Scaled) -> [(u8, Scaled); 21]
    ensures { sum_by (λ part. part.0) result ≡ 36 }
{
    let mut parts = WEIGHTS.map(|weight| (weight, others));
    parts[0] = (1, aces);
    parts
}

fn numerator(scaled: Option<Scaled>) -> Option<u128> {
    Some(scaled?.numerator())
}

// the mean before a roll whose double aces lead to the one mean, and all other rolls to the other
fn pull_of(aces: u128, others: u128) -> Result<Option<Scaled>, Fail> {
    let aces = Scaled::new(aces).ok_or("over 22 rolls")?;
    let others = Scaled::new(others).ok_or("over 22 rolls")?;
    Ok(pull(&parts(aces, others)))
}

#[test]
fn pulls_of_means(rt: HostRuntime) -> Result<(), Fail> {
    for (aces, others, expected) in [
        (0, 0, Some(WHOLE)),
        (21 * WHOLE, 21 * WHOLE, Some(MOST)),
        (MOST, MOST, None),
        (1, 0, None),
    ] {
        assert_eq!(rt; numerator(pull_of(aces, others)?), expected);
    }
    Ok(())
}

fn difference(greater: u128, less: u128) -> Result<Option<Scaled>, Fail> {
    let greater = Scaled::new(greater).ok_or("over 22 rolls")?;
    let less = Scaled::new(less).ok_or("over 22 rolls")?;
    Ok(greater.minus(less))
}

#[test]
fn differences(rt: HostRuntime) -> Result<(), Fail> {
    assert_eq!(rt; WHOLE, 17324272922341479351919144385642496);
    assert_eq!(rt; Scaled::new(MOST + 1), None);
    for (greater, less, expected) in [(47, 43, Some(4)), (43, 43, Some(0)), (43, 47, None)] {
        assert_eq!(rt; numerator(difference(greater, less)?), expected);
    }
    Ok(())
}

// the parts of 21 rolls that all lead to one spread
fn equal_parts(spread: Spread) -> [(u8, Spread); 21]
    ensures { sum_by (λ part. part.0) result ≡ 36 }
{
    WEIGHTS.map(|weight| (weight, spread))
}

fn pull_of_equal_parts(spread: Spread) -> Option<Spread> {
    Spread::pull(&equal_parts(spread))
}

// the shares where the race always takes so many rolls
fn certain(rolls: usize) -> [u128; 23] {
    let mut shares = [0; 23];
    shares[rolls.min(22)] = WHOLE;
    shares
}

#[test]
fn pulls_of_spreads(rt: HostRuntime) -> Result<(), Fail> {
    assert_eq!(rt; Spread::new([0; 23]), None);
    assert_eq!(rt;
        pull_of_equal_parts(Spread::finished()),
        Spread::new(certain(1))
    );
    let latest = Spread::new(certain(22)).ok_or("not a whole")?;
    assert_eq!(rt; pull_of_equal_parts(latest), None);
    assert_eq!(rt; (latest.at(22), latest.at(23)), (WHOLE, 0));
    Ok(())
}
