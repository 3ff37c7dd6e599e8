//! The numbers of a line, or of its reply.
use fixed_fraction::Wide;

/// How many numbers there may be.
const MOST: usize = 70;

/// The numbers of a line, or of its reply.
#[derive(Drop)]
pub(crate) struct Numbers {
    numbers: [u128; MOST],
    count: usize,
}

impl Numbers {
    /// No number.
    pub(crate) fn none() -> Self {
        Numbers {
            numbers: [0; MOST],
            count: 0,
        }
    }

    /// Adds one number more; the first 70 count.
    pub(crate) fn add(&mut self, number: u128) {
        if self.count < MOST {
            self.numbers[self.count] = number;
            self.count += 1;
        }
    }

    /// A number, or 0.
    pub(crate) fn at(&self, index: usize) -> u128 {
        self.numbers.get(index).copied().unwrap_or(0)
    }

    /// The lower 64 bits of a number.
    pub(crate) fn word(&self, index: usize) -> u64 {
        (self.at(index) % (1 << 64)) as u64
    }

    /// The lower 8 bits of a number.
    pub(crate) fn byte(&self, index: usize) -> u8 {
        (self.at(index) % 256) as u8
    }

    /// Which of three numbers each roll leads to.
    pub(crate) fn choices(&self) -> [u8; 21] {
        let mut choices = [0; 21];
        let mut left = self.at(0);
        for index in 0..21 {
            choices[index] = (left % 3) as u8;
            left /= 3;
        }
        choices
    }

    /// Adds two parts.
    pub(crate) fn add_parts(&mut self, upper: u128, lower: u64) {
        self.add(upper);
        self.add(u128::from(lower));
    }

    /// Adds the digits of a wide number: how many 10 ^ 36, how many 10 ^ 18, and the rest.
    pub(crate) fn add_wide(&mut self, wide: Wide) {
        let (first, second, third) = wide.digits();
        self.add(first);
        self.add_parts(u128::from(second), third);
    }

    /// All of them.
    pub(crate) fn all(&self) -> &[u128] {
        match self.numbers.get(..self.count) {
            Some(numbers) => numbers,
            None => &self.numbers,
        }
    }
}
