// The grid number at every half from -999.5 to 999.5, and at the floats next to each. A line has 8v, where v is the float in millimetres, and the
// grid numbers of the next float below v, of v, and of the next float above it. What `stdout` holds was worked out from rule 1.10 in exact fractions.
#![tactic(auto)]

use std::{io, num};

const SIGN: u32 = 0x8000_0000;

// How many halves there are on each side of zero.
const HALVES: u32 = 1000;

// The lowest half and a step of the grid, in millimetres: sums of them up to 125 mm are exact.
const LOWEST: f32 = -124.9375;

const STEP: f32 = 0.125;

fn print_grid_number(rt: &impl Print, bits: u32) -> io::Result<()> {
    print!(rt; " ")?;
    match grid::grid_number(num::f32_from_bits_with_nan(bits)) {
        Ok(number) => print!(rt; "{number}"),
        Err(off_grid) => print!(rt; "{off_grid}"),
    }
}

// The size of 8v is whole + 0.5.
fn print_half(rt: &impl Print, whole: u32) -> io::Result<()> {
    print!(rt; "{whole}.5:")
}

fn print_three(rt: &impl Print, below: u32, at: u32, above: u32) -> io::Result<()> {
    print_grid_number(rt, below)?;
    print_grid_number(rt, at)?;
    print_grid_number(rt, above)?;
    println!(rt)
}

// The bits rise away from zero, so below zero the next float below has the next bits above.
fn print_line(rt: &impl Print, whole: u32, v: f32) -> io::Result<()> {
    let bits = num::f32_to_bits_with_nan(v);
    let nearer = bits.wrapping_sub(1);
    let farther = bits.wrapping_add(1);
    if bits < SIGN {
        print_half(rt, whole)?;
        print_three(rt, nearer, bits, farther)
    } else {
        print!(rt; "-")?;
        print_half(rt, whole)?;
        print_three(rt, farther, bits, nearer)
    }
}

// Half number i has the whole part 999 at both ends, and 0 on both sides of zero.
fn whole_part(i: u32) -> u32 {
    if i < HALVES {
        HALVES - 1 - i
    } else {
        i - HALVES
    }
}

fn main(rt: HostRuntime) -> io::Result<()> {
    let mut v = LOWEST;
    for i in 0..2 * HALVES {
        print_line(&rt, whole_part(i), v)?;
        v = v + STEP;
    }
    Ok(())
}
