//! Twos and threes taken out of a numerator and its denominator.
ghost use Prim.Native.Nat.{◌∣◌};
ghost use Rattle.std.specs.Prelude.{◌≡◌, ◌+◌, ◌*◌, ◌%◌, ◌^◌, ◌<◌, ◌≤◌, IfSome, IsNone};
ghost use Rattle.std.specs.Int.{IsGcd};
ghost use Rattle.race_model.specs.Prelude.{whole};
ghost use Rattle.fixed_fraction.specs.Ratios.{IsDivided, AreApart};

/// A numerator over a product of so many threes and so many twos.
#[derive(Clone, Copy)]
pub(crate) struct Terms {
    pub numerator: u128,
    pub threes: u32,
    pub twos: u32,
}

/// A numerator over 36 ^ 22 in lowest terms.
pub(crate) fn lowest(numerator: u128) -> Terms
    ensures divided { IsDivided numerator whole result.numerator
        (3 ^ result.threes * 2 ^ result.twos) }
    ensures threes { result.threes ≤ 44 }
    ensures twos { result.twos ≤ 44 }
    ensures lowest { IsGcd result.numerator (3 ^ result.threes * 2 ^ result.twos) 1 }
{
    without_common(without_powers(Terms {
        numerator,
        threes: 44,
        twos: 44,
    }))
}

/// The terms without what both have. There are not many threes among that, as they are taken out
/// one by one.
pub(crate) fn without_common(terms: Terms) -> Terms
    requires threes { terms.threes ≤ 67 }
    requires twos { terms.twos ≤ 67 }
    ensures divided { IsDivided terms.numerator (3 ^ terms.threes * 2 ^ terms.twos)
        result.numerator (3 ^ result.threes * 2 ^ result.twos) }
    ensures threes { result.threes ≤ terms.threes }
    ensures twos { result.twos ≤ terms.twos }
    ensures lowest { IsGcd result.numerator (3 ^ result.threes * 2 ^ result.twos) 1 }
{
    let odd = without_threes(terms);
    without_twos(odd)
}

/// The terms without the twos that both have.
#[tactic(auto, using(crate::proofs::CommonFactors::by_twos))]
fn without_twos(terms: Terms) -> Terms
    requires { terms.twos ≤ 67 }
    ensures threes { result.threes ≡ terms.threes }
    ensures twos { result.twos ≤ terms.twos }
    ensures divided { IsDivided terms.numerator (2 ^ terms.twos) result.numerator
        (2 ^ result.twos) }
    ensures apart { AreApart 2 result.numerator (2 ^ result.twos) }
{
    let twos = terms.numerator.trailing_zeros().min(terms.twos);
    Terms {
        numerator: terms.numerator >> twos,
        threes: terms.threes,
        twos: terms.twos - twos,
    }
}

/// The terms without the threes that both have, taken out one by one.
#[tactic(auto, using(crate::proofs::CommonFactors::by_threes))]
fn without_threes(terms: Terms) -> Terms
    ensures twos { result.twos ≡ terms.twos }
    ensures threes { result.threes ≤ terms.threes }
    ensures divided { IsDivided terms.numerator (3 ^ terms.threes) result.numerator
        (3 ^ result.threes) }
    ensures apart { AreApart 3 result.numerator (3 ^ result.threes) }
{
    let mut less = terms;
    while let Some(next) = divided(less, 1, 3, 226854911280625642308916404954512140971) {
        less = next;
    }
    less
}

/// Divides both terms by powers of three that they share. Each power is taken out once, so of up
/// to 46 threes few are left.
fn without_powers(terms: Terms) -> Terms
    ensures twos { result.twos ≡ terms.twos }
    ensures threes { result.threes ≤ terms.threes }
    ensures divided { IsDivided terms.numerator (3 ^ terms.threes) result.numerator
        (3 ^ result.threes) }
{
    let less = without(terms, 16, 43046721, 179855886273263445113955941436171466945);
    let less = without(less, 16, 43046721, 179855886273263445113955941436171466945);
    let less = without(less, 8, 6561, 275503723987810565145167796780605508193);
    let less = without(less, 4, 81, 197447793151655651639242056164112418993);
    without(less, 2, 9, 75618303760208547436305468318170713657)
}

/// The terms divided by a power of three if it divides both, or else unchanged.
fn without(terms: Terms, count: u32, power: u128, inverse: u128) -> Terms
    requires power { power ≡ 3 ^ count }
    requires inverse { power * inverse % 2 ^ 128 ≡ 1 }
    ensures twos { result.twos ≡ terms.twos }
    ensures threes { result.threes ≤ terms.threes }
    ensures divided { IsDivided terms.numerator (3 ^ terms.threes) result.numerator
        (3 ^ result.threes) }
{
    match divided(terms, count, power, inverse) {
        Some(less) => less,
        None => terms,
    }
}

/// The terms divided by a power of three; none exactly where one of them is no multiple of it.
/// There is no division: modulo 2 ^ 128 the power has an inverse, by which its multiples, and they
/// alone, become numbers small enough.
#[inline(always)]
#[tactic(auto, using(crate::proofs::CommonFactors::by_power))]
fn divided(terms: Terms, count: u32, power: u128, inverse: u128) -> Option<Terms>
    requires power { power ≡ 3 ^ count }
    requires inverse { power * inverse % 2 ^ 128 ≡ 1 }
    ensures twos { IfSome result (λ less. less.twos ≡ terms.twos) }
    ensures threes { IfSome result (λ less. less.threes + count ≡ terms.threes) }
    ensures some { IfSome result (λ less. IsDivided terms.numerator (3 ^ terms.threes)
        less.numerator (3 ^ less.threes)) }
    ensures none { IsNone result → power ∣ terms.numerator → terms.threes < count }
{
    if terms.threes < count {
        return None;
    }
    let numerator = terms.numerator.wrapping_mul(inverse);
    if numerator > u128::MAX / power {
        return None;
    }
    Some(Terms {
        numerator,
        threes: terms.threes - count,
        twos: terms.twos,
    })
}
