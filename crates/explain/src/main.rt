// Reads requests as text and says of each whether it is admitted, and what it holds.
#![tactic(auto)]

mod arguments;
mod expected;
mod host_tables;
mod host_text;
mod number;
mod offers;
mod once;
mod parse;
mod reader;
mod show;
mod show_host;
mod tables;
mod text;
mod words;

fn main(rt: HostRuntime) -> anyhow::Result<()> {
    run(&rt)
}

fn run(rt: &HostRuntime) -> anyhow::Result<()> {
    let Some(source) = arguments::read(rt)? else {
        eprintln!(rt; "usage: explain [--terse] [FILE]")?;
        return Ok(());
    };
    let input = source.bytes(rt)?;
    reader::explain(rt, input.as_slice())
}
