ghost use Rattle.std.specs.Prelude.{◌≡◌, IfOk};

use crate::{Account, AccountFault, EndFault, Refusal};
use dp_budget::Over;
use dp_io::MemSink;
use dp_pipeline::read_pipeline;
use dp_tree::{FindFault, SeatFault};
use std::alloc::Global;
use std::test::Fail;

mod library;
mod sessions;
mod single;

/// A pipeline of two columns with the ratio 1/2, and a filter of five units at its root.
const FILTER_OF_FIVE: &[u8] = br#"{"version":1,"columns":["sex","age"],"header":false,"ratio":[1,2],
"distance":1,"root":["filter",5],"plans":{}}"#;

/// An ask at the root that costs three units.
const THREE: &[u8] = br#"{"node":0,"ask":[["count"],["geometric",3,0,0]]}"#;

/// An ask at the root that costs two units.
const TWO: &[u8] = br#"{"node":0,"ask":[["count"],["geometric",2,0,0]]}"#;

/// What was written of three lines and the last one, and what each call answered.
#[derive(Drop)]
struct Written {
    bytes: Vec<u8>,
    lines: [Result<(), AccountFault>; 3],
    end: Result<(), EndFault>,
}

/// The account of a pipeline's text.
fn account_of(alloc: Global, text: &[u8]) -> Result<Account, Fail>
    ensures { IfOk result (λ account. account.queries.answered ≡ 0) }
{
    let pipeline = read_pipeline(alloc, text)?;
    Ok(Account::new(alloc, pipeline)?)
}

/// Two asks of three units and one of two, by a sink that fails at such calls.
fn three_asks(alloc: Global, fails: Vec<u64>) -> Result<Written, Fail> {
    let mut account = account_of(alloc, FILTER_OF_FIVE)?;
    let mut out = MemSink::new(alloc, 1000, fails, 1000)?;
    let first = account.line(alloc, THREE, &mut out);
    let second = account.line(alloc, THREE, &mut out);
    let third = account.line(alloc, TWO, &mut out);
    let end = account.end(&mut out);
    Ok(Written {
        bytes: Vec::from_slice(alloc, out.held())?,
        lines: [first, second, third],
        end,
    })
}

#[test]
fn a_refused_query_has_its_line_and_is_not_charged(rt: HostRuntime) -> Result<(), Fail> {
    let written = three_asks(rt.alloc(), Vec::new(rt.alloc()))?;
    assert_eq!(rt;
        written.bytes.as_slice(),
        b"1 admitted draws 1 cost 3 spent 3
2 refused 7 budget 3 2
3 admitted draws 1 cost 2 spent 5
end 3 spent 5
"
            .as_slice()
    );
    assert_eq!(rt; written.lines, [Ok(()), Ok(()), Ok(())]);
    assert_eq!(rt; written.end, Ok(()));
    Ok(())
}

#[test]
fn a_fault_ends_an_account(rt: HostRuntime) -> Result<(), Fail> {
    let alloc = rt.alloc();
    let written = three_asks(alloc, vec![in alloc; 2]?)?;
    assert_eq!(rt;
        written.bytes.as_slice(),
        b"1 admitted draws 1 cost 3 spent 3\n".as_slice()
    );
    assert_eq!(rt;
        written.lines,
        [
            Ok(()),
            Err(AccountFault::WriteFault),
            Err(AccountFault::Ended)
        ]
    );
    assert_eq!(rt; written.end, Err(EndFault::Ended));
    Ok(())
}

#[test]
fn the_last_line_may_fail_and_is_asked_for_once(rt: HostRuntime) -> Result<(), Fail> {
    let alloc = rt.alloc();
    let mut account = account_of(alloc, FILTER_OF_FIVE)?;
    let mut out = MemSink::new(alloc, 4, vec![in alloc; 2]?, 1000)?;
    assert_eq!(rt; account.end(&mut out), Err(EndFault::WriteFault));
    assert_eq!(rt; out.held(), b"end ".as_slice());
    assert_eq!(rt; account.end(&mut out), Err(EndFault::Ended));
    assert_eq!(rt; out.held(), b"end ".as_slice());
    Ok(())
}

#[test]
fn faults_of_the_tree_are_refusals_of_the_same_name(rt: HostRuntime) {
    let over = Over { cost: 3, left: 2 };
    assert_eq!(rt; Refusal::from(FindFault::NoNode), Refusal::NoNode);
    assert_eq!(rt;
        Refusal::from(FindFault::Frozen {
            ancestor: 0,
            later: 3
        }),
        Refusal::Frozen {
            ancestor: 0,
            later: 3
        }
    );
    assert_eq!(rt; Refusal::from(SeatFault::Depth), Refusal::Depth);
    assert_eq!(rt;
        Refusal::from(SeatFault::ChildDistance { mapped: 2 }),
        Refusal::ChildDistance { mapped: 2 }
    );
    assert_eq!(rt; Refusal::from(SeatFault::Over(over)), Refusal::Budget(over));
}

#[test]
fn faults_are_named(rt: HostRuntime) -> Result<(), Fail> {
    let alloc = rt.alloc();
    for (fault, name) in [
        (AccountFault::Ended, "Ended"),
        (AccountFault::WriteFault, "WriteFault"),
        (AccountFault::NoMemory, "NoMemory"),
    ] {
        assert_eq!(rt; format!(in alloc; "{fault}")?.as_str(), name);
    }
    assert_eq!(rt; format!(in alloc; "{}", EndFault::Ended)?.as_str(), "Ended");
    assert_eq!(rt;
        format!(in alloc; "{}", EndFault::WriteFault)?.as_str(),
        "WriteFault"
    );
    Ok(())
}
