//! Decimals from 0 to 1, which are read exactly into millionths.
ghost use Rattle.std.specs.Prelude.{◌≡◌, ◌-◌, ◌*◌, ◌^◌, ◌≤◌, nat_le, Some, None, if◌then◌else◌};
ghost use Rattle.sentry_options.specs.Decimals.{next_reading, rate_after, rate_of, rate_read, start, with_digit};

use sentry_base::protocol::SampleRate;

// What was read of a decimal: its digits as one number, and how many of them stand behind the point.
#[derive(Clone, Copy)]
struct Reading {
    number: u32,
    places: u32,
    has_point: bool,
    has_digits: bool,
}

impl Reading {
    fn start() -> Reading
        ensures { result ≡ start }
    {
        Reading {
            number: 0,
            places: 0,
            has_point: false,
            has_digits: false,
        }
    }

    // With a digit.
    fn with_digit(self, digit: u32) -> Reading
        requires number { self.number ≤ 1000000 }
        requires places { self.places ≤ 5 }
        requires digit { digit ≤ 9 }
        ensures { result ≡ with_digit self digit }
    {
        let places = if self.has_point {
            self.places + 1
        } else {
            self.places
        };
        Reading {
            number: self.number * 10 + digit,
            places,
            has_point: self.has_point,
            has_digits: true,
        }
    }

    // With the next byte.
    fn next(self, byte: u8) -> Option<Reading>
        ensures { result ≡ next_reading self byte }
    {
        if byte == b'.' {
            if self.has_point {
                return None;
            }
            return Some(Reading {
                number: self.number,
                places: self.places,
                has_point: true,
                has_digits: self.has_digits,
            });
        }
        if byte < b'0' || byte > b'9' || self.number > SampleRate::ALL || self.places > 5 {
            return None;
        }
        Some(self.with_digit(u32::from(byte - b'0')))
    }

    // The rate.
    fn rate(self) -> Option<u32>
        ensures { result ≡ rate_read self }
    {
        if !self.has_digits {
            return None;
        }
        scale(self.number, unit_of(self.places))
    }
}

// What the last digit is worth, in millionths, if so many stand behind the point.
fn unit_of(places: u32) -> u32
    ensures value { result ≡ 10 ^ (6 - places) }
    ensures bound { result ≤ 1000000 }
{
    match places {
        0 => 1_000_000,
        1 => 100_000,
        2 => 10_000,
        3 => 1_000,
        4 => 100,
        5 => 10,
        _ => 1,
    }
}

// The product, if that is at most a million.
fn scale(number: u32, unit: u32) -> Option<u32>
    ensures { result ≡ (if nat_le (number * unit) 1000000 then Some (number * unit) else None) }
{
    let rate = u64::from(number) * u64::from(unit);
    if rate > 1_000_000 {
        return None;
    }
    Some(rate as u32)
}

/// Reads a rate from 0 to 1, such as `0.25`, in millionths. It has digits and at most one point, with at most six digits
/// behind it; `None` for any other text.
pub fn parse_rate(text: &str) -> Option<u32>
    ensures { result ≡ rate_of text.now }
{
    let mut reading = Reading::start();
    for byte in text.as_bytes() {
        reading = reading.next(*byte)?;
    }
    reading.rate()
}
