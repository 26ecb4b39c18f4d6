//! Examples for who calls the libraries: a resolver, a signer of record sets, an update server and a transfer client.
//! Each prints what it does. Nothing is sent: what would come from a network stands in `strings.rt`.
#![tactic(auto)]

mod own_scheme;
mod resolver;
mod strings;
mod transfer_client;
mod update_server;
mod zone_signer;

use anyhow::Result;

fn main(rt: HostRuntime) -> Result<()> {
    let alloc = rt.alloc();
    let signer = strings::signer(alloc)?;
    resolver::run(&rt, alloc, &signer)?;
    zone_signer::run(&rt, alloc)?;
    update_server::run(&rt, alloc, &signer)?;
    transfer_client::run(&rt, alloc, &signer)
}
