//! A machine that is served call by call: its heap lies in pages, at which a probe looks as an access does.
use kernel_heap::{Access, Call, Config, Machine, Reply};

const CONFIG: Config = Config {
    base: 0x40_0000,
    pages: 1024,
    granularity: 65536,
    frames: 1024,
    rate: 4095,
};

const CALLS: [Call; 5] = [
    Call::Calloc {
        size: 24,
        align: 64,
    },
    Call::Probe {
        at: 0x40_0040,
        access: Access::Write,
        user: false,
    },
    Call::Probe {
        at: 0x40_0040,
        access: Access::Read,
        user: true,
    },
    Call::Free { block: 0 },
    Call::Free { block: 0 },
];

pub(crate) fn run(rt: &HostRuntime) -> anyhow::Result<()> {
    let mut machine = Machine::new(rt.alloc(), &CONFIG)?;
    serve(rt, &mut machine)
}

// Serves the calls, and prints the result of each.
fn serve(rt: &HostRuntime, machine: &mut Machine) -> anyhow::Result<()> {
    for call in &CALLS {
        match machine.step(call)?.reply {
            Reply::Block { number, address } => println!(rt; "block {number} at {address:#x}")?,
            Reply::Byte(byte) => println!(rt; "byte {byte}")?,
            Reply::Fault(code) => println!(rt; "{code:?}")?,
            Reply::Refused(cause) => println!(rt; "refused {cause:?}")?,
            _ => println!(rt; "done")?,
        }
    }
    Ok(())
}
