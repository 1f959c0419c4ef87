// Edges of show files and of decoding, run.
#![tactic(auto)]

#[cfg(test)]
mod tests {
    use command::command::Command;
    use command::decode::decode;
    use command::log::LogRecord;
    use command::malformed::Malformed;
    use command::refusal::Refusal;
    use showfile::file::ShowFile;
    use showfile::refusal::FileRefusal;
    use std::test::Fail;

    // Why a file is refused, if it is.
    fn refusal(bytes: &[u8]) -> Option<FileRefusal> {
        ShowFile::open(bytes).err()
    }

    // Why a record is refused, if it is.
    fn malformed(bytes: &[u8]) -> Option<Malformed> {
        decode(bytes).err()
    }

    #[test]
    fn lengths(rt: HostRuntime) {
        assert_eq!(rt; refusal(&[]), Some(FileRefusal::Length));
        assert_eq!(rt; refusal(&[0; 31]), Some(FileRefusal::Length));
        assert_eq!(rt; refusal(&[0; 32]), None);
        assert_eq!(rt; refusal(&[0; 65536]), None);
        assert_eq!(rt; refusal(&[0; 65568]), Some(FileRefusal::Length));
    }

    #[test]
    fn chains(rt: HostRuntime) {
        let mut file = [0; 96];
        file[0] = 2;
        file[64] = 1;
        assert_eq!(rt; refusal(&file), None);
        file[32] = 2;
        assert_eq!(rt; refusal(&file), Some(FileRefusal::Endless));
        file[32] = 3;
        assert_eq!(rt; refusal(&file), Some(FileRefusal::Outside(1)));
        file[33] = 1;
        assert_eq!(rt; refusal(&file), Some(FileRefusal::Outside(1)));
        file[31] = 1;
        assert_eq!(rt; refusal(&file), Some(FileRefusal::Head));
    }

    #[test]
    fn in_chain_order(rt: HostRuntime) -> Result<(), Fail> {
        let mut bytes = [0; 96];
        bytes[0] = 2;
        bytes[64] = 1;
        bytes[66] = 7;
        let Ok(mut file) = ShowFile::open(&bytes) else {
            return Err(Fail::new("refused"));
        };
        assert_eq!(rt; file.remaining(), 2);
        let (first, record) = file.next().ok_or("no record")?;
        assert_eq!(rt; first, 2);
        assert!(rt; record.len() == 32);
        assert_eq!(rt; record[2], 7);
        let (second, _) = file.next().ok_or("no record")?;
        assert_eq!(rt; second, 1);
        assert!(rt; file.next().is_none());
        Ok(())
    }

    #[test]
    fn shapes(rt: HostRuntime) {
        let mut record = [0; 32];
        assert_eq!(rt; malformed(&record), Some(Malformed::Kind));
        assert_eq!(rt; malformed(&[0; 33]), Some(Malformed::Length));
        record[3] = 3;
        record[6] = 9;
        assert_eq!(rt; malformed(&record), Some(Malformed::Shape(6)));
        record[6] = 8;
        record[22] = 5;
        assert_eq!(rt; malformed(&record), None);
        record[3] = 4;
        assert_eq!(rt; malformed(&record), Some(Malformed::Shape(6)));
        record[6] = 4;
        assert_eq!(rt; malformed(&record), Some(Malformed::Shape(22)));
        record[5] = 200;
        record[22] = 0;
        assert_eq!(rt; malformed(&record), None);
        record[3] = 2;
        assert_eq!(rt; malformed(&record), Some(Malformed::Shape(5)));
    }

    #[test]
    fn parts_of_a_record(rt: HostRuntime) -> Result<(), Fail> {
        let mut record = [0; 32];
        record[3] = 3;
        record[4] = 6;
        record[6] = 1;
        record[7] = 2;
        record[9] = 1;
        record[26] = 4;
        let Ok(
            Command::Instruct {
                code,
                args,
                results,
            },
        ) = decode(&record)
        else {
            return Err(Fail::new("no instruct"));
        };
        assert_eq!(rt; code, 6);
        assert_eq!(rt; cells::list::count(args), 1);
        assert_eq!(rt; cells::list::cell(args, 0), 256);
        assert_eq!(rt; cells::list::count(results), 2);
        assert_eq!(rt; cells::list::cell(results, 1), 4);
        Ok(())
    }

    #[test]
    fn refused_record(rt: HostRuntime) {
        let told = LogRecord::new(7, 2, 3, Err(Refusal::Cell(8)));
        assert_eq!(rt;
            told,
            LogRecord {
                place: 7,
                part: 2,
                kind: 3,
                refusal: 12,
                detail: 8,
                missed: 0,
                count: 0,
                words: [0; 8],
            }
        );
    }
}
