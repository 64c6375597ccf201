// Cases of document 01 through the compiled leaves: what it prints is held to the file `stdout`.

#![tactic(auto)]

ghost use Rattle.rules.specs.Layout.{memory_of};
ghost use Rattle.memory_counts.specs.Counted.{Counted};

use number_division::{divide, divide_nearest};
use rules::{Block, Counts, ExecutionMemory, MEMORY_LENGTH, Pointer, Stop, Use, Value};
use std::io;

fn print_stop<E: Into<u32>>(rt: &impl Print, stop: E) -> io::Result<()> {
    let number = stop.into();
    print!(rt; " {number}")
}

// 0, or the number of the ending.
fn print_ending<E: Into<u32>>(rt: &impl Print, outcome: Result<(), E>) -> io::Result<()> {
    match outcome {
        Ok(()) => print!(rt; " 0"),
        Err(stop) => print_stop(rt, stop),
    }
}

// The integer, or the number of the ending.
fn print_integer(rt: &impl Print, integer: Result<i64, Stop>) -> io::Result<()> {
    match integer {
        Ok(z) => print!(rt; " {z}"),
        Err(stop) => print_stop(rt, stop),
    }
}

fn print_p2(rt: &impl Print) -> io::Result<()> {
    print!(rt; "P2")?;
    for (a, b) in [(7, 2), (-7, 2), (5, 2), (-5, 2), (1, 3)] {
        print_integer(rt, divide_nearest(a, b))?;
    }
    println!(rt;)
}

fn print_p3_p4(rt: &impl Print) -> io::Result<()> {
    print!(rt; "P3")?;
    print_integer(rt, divide(-7, 2))?;
    println!(rt;)?;
    print!(rt; "P4")?;
    print_integer(rt, divide(i64::MIN, -1))?;
    print_integer(rt, divide(i64::MIN, 0))?;
    println!(rt;)
}

// The memory with inputs 7 and 9 and one let's block.
fn begin(mem: &mut ExecutionMemory) -> Counts
    ensures { Counted (memory_of mem.new) result }
{
    let inputs = [7u8, 0, 0, 0, 0, 0, 0, 0, 9, 0, 0, 0, 0, 0, 0, 0];
    memory_start::start(mem, &inputs);
    let mut counts = memory_counts::start(2);
    let _ = memory_blocks::make(mem, &mut counts, Use::Fixed, 1);
    counts
}

// Name, first cell and length of a new block, or its ending.
fn print_new(
    rt: &impl Print,
    mem: &mut ExecutionMemory,
    counts: &mut Counts,
    n: usize,
) -> io::Result<()>
    requires { Counted (memory_of mem.old) counts.old }
    ensures { Counted (memory_of mem.new) counts.new }
{
    match memory_blocks::make(mem, counts, Use::Freeable, n) {
        Ok(name) => print_block(rt, mem, name),
        Err(stop) => print_stop(rt, stop),
    }
}

fn print_block(rt: &impl Print, mem: &ExecutionMemory, name: u16) -> io::Result<()> {
    match memory_cells::block(mem, name) {
        Block::Unused => print!(rt; " {name} 0"),
        Block::Fixed(..) => print!(rt; " {name} 1"),
        Block::Freeable(first, n) => print!(rt; " {name} {first} {n}"),
        Block::Dead => print!(rt; " {name} 3"),
    }
}

// The ending of statement 42 where the let's variable takes a new block of no cells, answered by its number.
fn print_empty(rt: &impl Print, mem: &mut ExecutionMemory, counts: &mut Counts) -> io::Result<()>
    requires { Counted (memory_of mem.old) counts.old }
{
    let place = Pointer { name: 3, offset: 0 };
    let size = Value::Integer(0);
    print_ending(
        rt,
        run_allocation::new_at::<u32>(mem, counts, Ok(place), Ok(size)),
    )
}

fn print_p8(rt: &impl Print) -> io::Result<()> {
    let mut mem = [0u8; MEMORY_LENGTH];
    print!(rt; "P8")?;
    let mut counts = begin(&mut mem);
    print_new(rt, &mut mem, &mut counts, 1020)?;
    counts = begin(&mut mem);
    print_new(rt, &mut mem, &mut counts, 1021)?;
    counts = begin(&mut mem);
    print_empty(rt, &mut mem, &mut counts)?;
    println!(rt;)
}

fn print_p9(rt: &impl Print) -> io::Result<()> {
    let mut mem = [0u8; MEMORY_LENGTH];
    print!(rt; "P9")?;
    let mut counts = begin(&mut mem);
    print_new(rt, &mut mem, &mut counts, 6)?;
    let block = Pointer { name: 4, offset: 0 };
    print_ending(rt, memory_freeing::free(&mut mem, &mut counts, block))?;
    print_new(rt, &mut mem, &mut counts, 6)?;
    print_block(rt, &mem, 4)?;
    println!(rt;)
}

fn main(rt: HostRuntime) -> io::Result<()> {
    print_p2(&rt)?;
    print_p3_p4(&rt)?;
    print_p8(&rt)?;
    print_p9(&rt)
}
