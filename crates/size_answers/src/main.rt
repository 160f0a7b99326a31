#![tactic(auto)]

// Size classes, raised sizes and shifts, compared with the Rust: for every size from 0 to 65,544 its bin, for every word count
// from 0 to 8,200 its bin by look-up, and for every MIN, MAX and align the raised size, its bin and its cell size, and shifted
// addresses. The lines of `stdout` are checksums over the Rust's answers, made by oracle/samples/size_answers.py; this program
// makes the same from the port's.
ghost use Rattle.std.specs.Prelude.{◌<◌, ◌≤◌};

use model::{Address, Params};
use native_ms::{allocator, classes, size_class};
use std::fmt;
use std::io::Result;

// Sizes from 0 to 65,544, and word counts from 0 to 8,200.
const SIZES: usize = 65545;

const WORD_COUNTS: usize = 8201;

const OFFSETS: usize = 33;

const REGIONS: usize = 16;

// MAX and the align go over these, from MIN on.
const POWERS: [usize; 5] = [4, 8, 16, 32, 64];

// A prime.
const MODULUS: usize = 4294967291;

// A checksum: each number more makes h into h × 1,000,003 + x modulo a prime.
#[derive(Clone, Copy)]
struct Checksum {
    h: usize,
    ghost low: { h < 4294967291 },
}

impl Checksum {
    fn new() -> Checksum {
        Checksum { h: 0 }
    }

    fn and(self, x: usize) -> Checksum {
        Checksum {
            h: (self.h * 1000003 + x % MODULUS) % MODULUS,
        }
    }

    // Of the answers to every question below n.
    fn of<F: Fn(usize) -> usize>(n: usize, answer: F) -> Checksum
        requires { F.IsAlwaysCallable answer }
    {
        let mut sum = Checksum::new();
        for question in 0..n {
            sum = sum.and(answer(question));
        }
        sum
    }
}

impl fmt::Display for Checksum {
    fn fmt<W: fmt::Write>(&self, f: &mut fmt::Formatter<W>) -> fmt::Result {
        let h = self.h;
        write!(f, "{h}")
    }
}

fn bins() -> Checksum {
    Checksum::of(SIZES, |size| size_class::mi_bin_from_size(size))
}

// By look-up in the table, taken once: each of its entries, and eight counts past it.
fn entries() -> Checksum {
    let table = size_table::bin_table();
    Checksum::of(
        WORD_COUNTS,
        |words| usize::from(size_table::bin_in(&table, words)),
    )
}

// The same counts, each by a call of its own.
fn bins_of_words() -> Checksum {
    Checksum::of(
        WORD_COUNTS,
        |words| usize::from(size_table::bin_of_words(words)),
    )
}

// What a line is about.
#[derive(Clone, Copy)]
struct Asked {
    p: Params,
    align: usize,
    ghost some: { 0 < p.min },
    ghost few: { p.min ≤ 8 },
}

impl Asked {
    // One raised size, its bin and its cell size; three zeros where there is none.
    fn raised(&self, sum: Checksum, size: usize) -> Checksum {
        match allocator::get_maximum_aligned_size(self.p, size, self.align) {
            None => sum.and(0).and(0).and(0),
            Some(n) => {
                let bin = size_class::mi_bin_from_size(n);
                sum.and(n).and(bin).and(size_class::class_bytes(bin))
            }
        }
    }

    // Every size that is a multiple of MIN.
    fn sizes(&self) -> Checksum {
        let mut sum = Checksum::new();
        for size in (0..SIZES).step_by(self.p.min) {
            sum = self.raised(sum, size);
        }
        sum
    }

    fn shifted(&self, sum: Checksum, region: usize, offset: usize) -> Checksum {
        let shifted = allocator::shift_address(Address(region), self.align, offset);
        sum.and(shifted.map_or(0, |a| a.0))
    }

    // The offsets from `first` on, in steps of MIN.
    fn offsets(&self, sum: Checksum, region: usize, first: usize) -> Checksum
        requires { first ≤ 65536 }
    {
        let mut sum = sum;
        for k in 0..OFFSETS {
            sum = self.shifted(sum, region, first + k * self.p.min);
        }
        sum
    }

    // The regions from `from` on, in steps of 8.
    fn regions(&self, sum: Checksum, from: usize, first: usize) -> Checksum
        requires { (from ≤ 140737488355328) × (first ≤ 65536) }
    {
        let mut sum = sum;
        for k in 0..REGIONS {
            sum = self.offsets(sum, from + 8 * k, first);
        }
        sum
    }
}

// A MIN.
#[derive(Clone, Copy)]
struct Min {
    bytes: usize,
    ghost some: { 0 < bytes },
    ghost few: { bytes ≤ 8 },
}

// The line of one MIN, MAX and align. Each sum is written as soon as it is known.
fn line(rt: &impl Print, min: Min, max: usize, align: usize) -> Result<()> {
    let min = min.bytes;
    let asked = Asked {
        p: Params {
            base: 65536,
            bytes: 65536,
            blocks: 1,
            min,
            max,
            offsets: false,
            unified: true,
            lower: 0,
            eager: false,
            rows: classes::no_rows(),
            count: 0,
        },
        align,
    };
    print!(rt; "{min} {max} {align} ")?;
    print!(rt; "{} ", asked.sizes())?;
    let low = asked.regions(Checksum::new(), 8, 0);
    let high = asked.regions(low, 140737488355200, 65536 - 32 * min);
    println!(rt; "{high}")
}

// Each power of two from low to high.
fn each_power<F: Fn(usize) -> Result<()>>(low: usize, high: usize, step: F) -> Result<()>
    requires { F.IsAlwaysCallable step }
{
    for power in POWERS {
        if low <= power && power <= high {
            step(power)?;
        }
    }
    Ok(())
}

fn lines(rt: &impl Print, min: Min) -> Result<()> {
    each_power(
        min.bytes,
        64,
        |max| each_power(min.bytes, max, |align| line(rt, min, max, align)),
    )
}

fn all(rt: &impl Print) -> Result<()> {
    println!(rt; "{}", bins())?;
    print!(rt; "{} ", entries())?;
    println!(rt; "{}", bins_of_words())?;
    lines(rt, Min { bytes: 4 })?;
    lines(rt, Min { bytes: 8 })
}

fn main(rt: HostRuntime) {
    if all(&rt).is_err() {
        let _ = rt.eprint("size_answers: standard output can't be written\n");
    }
}
