//! Files of the machine.

use opal_base::{FileFault, Files, StdFiles};
use std::test::Fail;
use std::{env, fs};

#[test]
fn files_of_the_machine_are_read(rt: HostRuntime) -> Result<(), Fail> {
    let alloc = rt.alloc();
    let folder = env::temp_dir(&rt)?;
    let path = folder.join(alloc, "opal-files-of-the-machine")?;
    fs::write(&rt, &path, b"puts 'hi'")?;
    let name = path.to_string_lossy().to_string(alloc)?;
    let mut files = StdFiles::new(rt.clone()?);
    let whole = files.read(alloc, name.as_str(), 100);
    let front = files.read(alloc, name.as_str(), 4);
    fs::remove_file(&rt, &path)?;
    assert!(rt; matches!(&whole, Ok(bytes) if bytes.as_slice() == b"puts 'hi'".as_slice()));
    assert!(rt; matches!(&front, Ok(bytes) if bytes.as_slice() == b"puts".as_slice()));
    let absent = files.read(alloc, name.as_str(), 100);
    assert!(rt; matches!(&absent, Err(FileFault::Absent)));
    Ok(())
}
