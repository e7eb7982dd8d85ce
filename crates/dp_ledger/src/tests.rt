ghost use Rattle.std.specs.Prelude.{◌≡◌, ◌≤◌, length};

use super::*;
use dp_num::Ratio;
use std::alloc::Global;
use std::fs;
use std::test::Fail;

/// A new ledger of the ratio 9/10.
const NEW: [u8; 26] = [
    9, 0, 0, 0, 10, 0, 0, 0, 0, 0, 0, 0, 0, 0, 0, 0, 1, 0, 0, 0, 0, 0, 0, 0, 0, 0,
];

/// Then charged 6 units.
const SIX: [u8; 26] = [
    9, 0, 0, 0, 10, 0, 0, 0, 0, 0, 0, 0, 0, 0, 0, 0, 1, 6, 0, 0, 0, 0, 0, 0, 0, 1,
];

/// Then charged 1 unit.
const SEVEN: [u8; 26] = [
    9, 0, 0, 0, 10, 0, 0, 0, 7, 0, 0, 0, 0, 0, 0, 0, 1, 6, 0, 0, 0, 0, 0, 0, 0, 1,
];

/// A disk in memory with these bytes and room for 32 bytes and 64 calls.
fn disk_of(alloc: Global, bytes: &[u8], fails: Vec<u64>) -> Result<MemDisk, Fail>
    requires { length bytes.now ≤ 32 }
{
    let bytes = Vec::from_slice(alloc, bytes)?;
    Ok(MemDisk::new(alloc, bytes, fails, 32, 64)?)
}

#[test]
fn images_of_a_new_ledger_and_of_two_charges(rt: HostRuntime) -> Result<(), Fail> {
    let alloc = rt.alloc();
    let mut disk = disk_of(alloc, &[], Vec::new(alloc))?;
    let ratio = Ratio::new(9, 10)?;
    let mut ledger = Ledger::create(&mut disk, ratio)?;
    assert_eq!(rt;
        (ledger.total(), ledger.ratio(), ledger.closed()),
        (0, ratio, false)
    );
    assert_eq!(rt; disk.reads(), NEW.as_slice());
    assert_eq!(rt; disk.kept(), NEW.as_slice());
    ledger.charge(&mut disk, 6)?;
    assert_eq!(rt; disk.reads(), SIX.as_slice());
    assert_eq!(rt; disk.kept(), SIX.as_slice());
    ledger.charge(&mut disk, 1)?;
    assert_eq!(rt; disk.reads(), SEVEN.as_slice());
    assert_eq!(rt; disk.kept(), SEVEN.as_slice());
    let answer = ledger.charge(&mut disk, 4_294_967_296);
    assert_eq!(rt;
        answer,
        Err(ChargeFault::Full {
            total: 7,
            by: 4_294_967_296
        })
    );
    assert_eq!(rt; ledger.total(), 7);
    assert_eq!(rt; disk.reads(), SEVEN.as_slice());
    Ok(())
}

#[test]
fn a_ledger_is_opened_by_its_ratio_and_not_created_again(rt: HostRuntime) -> Result<(), Fail> {
    let alloc = rt.alloc();
    let ratio = Ratio::new(9, 10)?;
    let half = Ratio::new(1, 2)?;
    let mut disk = disk_of(alloc, &NEW, Vec::new(alloc))?;
    assert_eq!(rt;
        Ledger::open(&mut disk, half).err(),
        Some(OpenLedgerFault::NotLedger)
    );
    assert_eq!(rt;
        Ledger::create(&mut disk, ratio).err(),
        Some(CreateFault::There)
    );
    assert_eq!(rt; Ledger::open(&mut disk, ratio)?.total(), 0);
    let mut cut = disk_of(alloc, &NEW[..25], Vec::new(alloc))?;
    assert_eq!(rt;
        Ledger::open(&mut cut, ratio).err(),
        Some(OpenLedgerFault::NotLedger)
    );
    Ok(())
}

/// The total of the ledger of the ratio that these bytes are.
fn total_in(alloc: Global, bytes: &[u8], ratio: Ratio) -> Result<u64, Fail> {
    let copy = Vec::from_slice(alloc, bytes)?;
    let mut disk = MemDisk::new(alloc, copy, Vec::new(alloc), bytes.len(), 2)?;
    Ok(Ledger::open(&mut disk, ratio)?.total())
}

#[test]
fn a_charge_with_each_call_failing_leaves_the_total_before_or_after(
    rt: HostRuntime,
) -> Result<(), Fail> {
    let alloc = rt.alloc();
    let ratio = Ratio::new(9, 10)?;
    // To open the ledger takes two calls, and the charge six.
    for n in 1u64..7 {
        let mut disk = disk_of(alloc, &SIX, vec![in alloc; n + 2]?)?;
        let mut ledger = Ledger::open(&mut disk, ratio)?;
        let answer = ledger.charge(&mut disk, 1);
        assert_eq!(rt; answer, Err(ChargeFault::DiskFault), "call {n}");
        assert!(rt; ledger.closed());
        assert_eq!(rt; ledger.charge(&mut disk, 1), Err(ChargeFault::Closed));
        for bytes in [disk.kept(), disk.reads()] {
            let total = total_in(alloc, bytes, ratio)?;
            assert!(rt; total == 6 || total == 7, "call {n}");
        }
    }
    let mut disk = disk_of(alloc, &SIX, vec![in alloc; 9]?)?;
    let mut ledger = Ledger::open(&mut disk, ratio)?;
    ledger.charge(&mut disk, 1)?;
    assert_eq!(rt; disk.kept(), SEVEN.as_slice());
    Ok(())
}

#[test]
fn a_disk_in_memory_fails_at_the_stated_calls(rt: HostRuntime) -> Result<(), Fail> {
    let alloc = rt.alloc();
    let bytes = Vec::from_slice(alloc, b"ab")?;
    let mut disk = MemDisk::new(alloc, bytes, vec![in alloc; 3]?, 5, 6)?;
    let mut buf = [0u8; 4];
    disk.write_at(3, b"d")?;
    assert_eq!(rt; disk.reads(), b"ab\0d".as_slice());
    assert_eq!(rt; disk.kept(), b"ab".as_slice());
    disk.sync()?;
    assert!(rt; disk.write_at(0, b"x").is_err());
    assert!(rt; disk.write_at(4, b"ef").is_err());
    assert_eq!(rt; disk.kept(), b"ab\0d".as_slice());
    assert_eq!(rt; disk.read_at(2, &mut buf)?, 2);
    assert_eq!(rt; buf, *b"\0d\0\0");
    assert_eq!(rt; disk.read_at(4, &mut buf)?, 0);
    assert!(rt; disk.sync().is_err());
    Ok(())
}

#[test]
fn a_ledger_in_a_file(rt: HostRuntime) -> Result<(), Fail> {
    let alloc = rt.alloc();
    let ratio = Ratio::new(9, 10)?;
    let mut disk = FileDisk::open(&rt, alloc, "ledger_in_a_file")?;
    let mut ledger = Ledger::create(&mut disk, ratio)?;
    ledger.charge(&mut disk, 6)?;
    let mut again = FileDisk::open(&rt, alloc, "ledger_in_a_file")?;
    let mut opened = Ledger::open(&mut again, ratio)?;
    assert_eq!(rt; opened.total(), 6);
    opened.charge(&mut again, 1)?;
    assert_eq!(rt;
        fs::read(&rt, "ledger_in_a_file")?.as_slice(),
        SEVEN.as_slice()
    );
    assert_eq!(rt;
        Ledger::create(&mut disk, ratio).err(),
        Some(CreateFault::There)
    );
    fs::remove_file(&rt, "ledger_in_a_file")?;
    Ok(())
}

#[test]
fn a_disk_without_a_file_fails(rt: HostRuntime) -> Result<(), Fail> {
    let alloc = rt.alloc();
    let ratio = Ratio::new(9, 10)?;
    for name in [".", "no_such_folder/ledger"] {
        let mut disk = FileDisk::open(&rt, alloc, name)?;
        assert_eq!(rt;
            Ledger::create(&mut disk, ratio).err(),
            Some(CreateFault::DiskFault)
        );
        assert_eq!(rt;
            Ledger::open(&mut disk, ratio).err(),
            Some(OpenLedgerFault::DiskFault)
        );
        assert!(rt; disk.write_at(0, b"x").is_err());
    }
    let mut none: FileDisk<HostRuntime> = FileDisk::none();
    let mut buf = [0u8; 1];
    assert!(rt; none.sync().is_err());
    assert!(rt; none.read_at(0, &mut buf).is_err());
    Ok(())
}
