use dsd_station::{FileStation, Station};
use std::fs;
use std::test::Fail;

#[test]
fn a_file_station_fails_without_its_files(rt: HostRuntime) -> Result<(), Fail> {
    let mut station = FileStation::new(&rt);
    let unattached = station.sync().is_err();
    station.attach("test_journal", "")?;
    let mut into = [0u8; 64];
    let no_port = station.listen(&mut into).is_err() && station.speak(b"d").is_err();
    fs::remove_file(&rt, "test_journal")?;
    assert!(rt; unattached && no_port);
    Ok(())
}
