// Checks stores and requests on both sides of each limit and each rule, and says what each check answered.
#![tactic(auto)]

mod asked;
mod laid;
mod largest;
mod logged;
mod read;
mod ruled;
mod sizes;
mod tables;
mod verdict;

fn run(rt: &HostRuntime) -> anyhow::Result<()> {
    sizes::run(rt)?;
    laid::run(rt)?;
    ruled::run(rt)?;
    asked::run(rt)?;
    logged::run(rt)?;
    read::run(rt)?;
    largest::run(rt)
}

fn main(rt: HostRuntime) -> anyhow::Result<()> {
    run(&rt)
}
