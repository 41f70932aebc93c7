// A publication as numbers below 65,536.
ghost use Rattle.std.specs.Prelude.{◌≡◌, ◌≤◌, ◌*◌, ◌++◌, length, IfOk, OnOk};
ghost use Rattle.ksi_printed.specs.Printed.{decimals, numbers_of, weighed, with_sum, words};
ghost use Rattle.ksi_printed.specs.Reading.{bytes_of, of_decimals, root_of, second_of};

use ksi_imprint::{Imprint, NoMemory};
use std::alloc::Global;

/// The numbers of a second and a root.
pub(crate) fn numbers_of(alloc: Global, second: u64, root: &Imprint) -> Result<Vec<u16>, NoMemory>
    ensures { IfOk result (λ numbers. numbers.items ≡ numbers_of second root.now) }
{
    let mut numbers = Vec::new(alloc);
    numbers.push(decimals(second / 100_000_000))?;
    numbers.push(decimals(second / 10_000))?;
    numbers.push(decimals(second))?;
    let (_, digest) = root.bytes().split_at(1);
    push_words(&mut numbers, digest)?;
    Ok(numbers)
}

/// The last four decimal digits.
fn decimals(n: u64) -> u16
    ensures { result ≡ decimals n }
{
    (4096 * (n / 1000 % 10) + 256 * (n / 100 % 10) + 16 * (n / 10 % 10) + n % 10) as u16
}

/// Appends two bytes to a number.
fn push_words(numbers: &mut Vec<u16>, bytes: &[u8]) -> Result<(), NoMemory>
    requires { length bytes.now ≡ 32 }
    ensures { OnOk result (numbers.new.items ≡ numbers.old.items ++ words bytes.now) }
{
    for place in 0..16usize {
        numbers.push(256 * u16::from(bytes[2 * place]) + u16::from(bytes[2 * place + 1]))?;
    }
    Ok(())
}

/// Appends the sum of the numbers, in two.
pub(crate) fn push_sum(numbers: &mut Vec<u16>) -> Result<(), NoMemory>
    requires { length numbers.old.items ≤ 19 }
    ensures { OnOk result (numbers.new.items ≡ with_sum numbers.old.items) }
{
    let sum = weighed(numbers.as_slice());
    numbers.push((sum / 65536) as u16)?;
    numbers.push((sum % 65536) as u16)?;
    Ok(())
}

/// The sum of the numbers, each times its place from the end.
fn weighed(numbers: &[u16]) -> u64
    requires { length numbers.now ≤ 19 }
    ensures sum { result ≡ weighed numbers.now }
    ensures bounded { result ≤ 23658135 }
{
    let mut sum = 0;
    for place in 0..numbers.len() {
        sum += weight(numbers.len() - place, numbers[place]);
    }
    sum
}

fn weight(places: usize, number: u16) -> u64
    requires { places ≤ 19 }
    ensures product { result ≡ places * number }
    ensures bounded { result ≤ 1245165 }
{
    places as u64 * u64::from(number)
}

/// The second of all numbers of a text.
pub(crate) fn second_of(numbers: &[u16]) -> u64
    requires { 3 ≤ length numbers.now }
    ensures { result ≡ second_of numbers.now }
{
    100_000_000 * of_decimals(numbers[0])
        + 10_000 * of_decimals(numbers[1])
        + of_decimals(numbers[2])
}

fn of_decimals(n: u16) -> u64
    ensures value { result ≡ of_decimals n }
    ensures bounded { result ≤ 16665 }
{
    let n = u64::from(n);
    1000 * (n / 4096) + 100 * (n / 256 % 16) + 10 * (n / 16 % 16) + n % 16
}

/// The root of all numbers of a text.
pub(crate) fn root_of(alloc: Global, numbers: &[u16]) -> Result<Imprint, NoMemory>
    requires { length numbers.now ≡ 21 }
    ensures { IfOk result (λ root. root ≡ root_of numbers.now) }
{
    let (_, rest) = numbers.split_at(3);
    let (digest, _) = rest.split_at(16);
    let mut bytes = Vec::new(alloc);
    bytes.push(1)?;
    push_bytes(&mut bytes, digest)?;
    match Imprint::read(bytes.as_slice()) {
        Ok(root) => Ok(root),
        Err(_) => unreachable!(),
    }
}

/// Appends the two bytes of each number.
fn push_bytes(bytes: &mut Vec<u8>, numbers: &[u16]) -> Result<(), NoMemory>
    ensures { OnOk result (bytes.new.items ≡ bytes.old.items ++ bytes_of numbers.now) }
{
    for number in numbers {
        bytes.extend_from_slice(&[(*number / 256) as u8, (*number % 256) as u8])?;
    }
    Ok(())
}
