//! What is tested of the reading of captures: octets of masters' captures as other programs wrote them.
#![tactic(auto)]

#[cfg(test)]
mod tests {
    use capture_blocks::{Order, SECTION, read_block};
    use capture_records::{FileEnd, read_form, read_records};
    use ethercat_places::{Kind, read_frame};
    use std::test::Fail;

    const SECTION_HEADER: [u8; 28] = [
        0x0A, 0x0D, 0x0D, 0x0A, 0, 0, 0, 0x1C, 0x1A, 0x2B, 0x3C, 0x4D, 0, 1, 0, 0, 0xFF, 0xFF,
        0xFF, 0xFF, 0xFF, 0xFF, 0xFF, 0xFF, 0, 0, 0, 0x1C,
    ];

    const TWICE_TAGGED: [u8; 60] = [
        0xFF, 0xFF, 0xFF, 0xFF, 0xFF, 0xFF, 0, 1, 0x88, 0x12, 0xAB, 0xCD, 0x88, 0xA8, 0, 5, 0x81,
        0, 0, 6, 0x88, 0xA4, 0x0E, 0x10, 2, 0, 0, 0, 0x10, 0, 2, 0, 0, 0, 0xE9, 3, 0, 0, 0, 0, 0,
        0, 0, 0, 0, 0, 0, 0, 0, 0, 0, 0, 0, 0, 0, 0, 0, 0, 0, 0,
    ];

    const CUT_IN_UDP: [u8; 54] = [
        0xFF, 0xFF, 0xFF, 0xFF, 0xFF, 0xFF, 2, 0, 0, 0, 0, 1, 8, 0, 0x45, 0, 0, 0x2C, 0, 0, 0, 0,
        0x40, 0x11, 0, 0, 0xC0, 0xA8, 0, 1, 0xFF, 0xFF, 0xFF, 0xFF, 0x88, 0xA4, 0x88, 0xA4, 0,
        0x18, 0, 0, 0x0E, 0x10, 2, 0, 0, 0, 0x10, 0, 2, 0, 0, 0,
    ];

    const CUT_FILE: [u8; 130] = [
        0xA1, 0xB2, 0x3C, 0x4D, 0, 2, 0, 4, 0, 0, 0, 0, 0, 0, 0, 0, 0, 4, 0, 0, 0, 0, 0, 1, 0x65,
        0x53, 0xF1, 0, 0, 0, 0x1B, 0x58, 0, 0, 0, 0x3C, 0, 0, 0, 0x3C, 0xFF, 0xFF, 0xFF, 0xFF,
        0xFF, 0xFF, 1, 1, 1, 1, 1, 1, 0x88, 0xA4, 0x0D, 0x10, 8, 0, 0, 0, 1, 1, 1, 0, 0, 0, 0, 0,
        0, 0, 0, 0, 0, 0, 0, 0, 0, 0, 0, 0, 0, 0, 0, 0, 0, 0, 0, 0, 0, 0, 0, 0, 0, 0, 0, 0, 0, 0,
        0, 0, 0x65, 0x53, 0xF1, 0, 0, 0, 0x9C, 0x40, 0, 0, 0, 0x3C, 0, 0, 0, 0x3C, 0xFF, 0xFF,
        0xFF, 0xFF, 0xFF, 0xFF, 3, 1, 1, 1, 1, 1, 0x88, 0xA4,
    ];

    /// A section header of the higher octet first, behind any other byte order.
    #[test]
    fn a_section_tells_its_byte_order(rt: HostRuntime) -> Result<(), Fail> {
        let block = read_block(Order::LowFirst, &SECTION_HEADER)
            .ok()
            .ok_or("no block")?;
        assert!(rt; matches!(block.order, Order::HighFirst));
        assert_eq!(rt; block.kind, SECTION);
        assert_eq!(rt; block.size, 28);
        Ok(())
    }

    /// A frame behind two tags, and one in UDP whose last octets weren't captured.
    #[test]
    fn frames_are_found(rt: HostRuntime) {
        let tagged = read_frame(&TWICE_TAGGED, 60);
        assert!(rt; matches!(tagged.kind, Kind::EtherCat));
        assert_eq!(rt; tagged.first, 24);
        assert_eq!(rt; tagged.visible, 1);
        let cut = read_frame(&CUT_IN_UDP, 60);
        assert!(rt; matches!(cut.kind, Kind::Cut));
        assert_eq!(rt; cut.first, 44);
        assert!(rt; cut.wholly);
    }

    /// A packet of nanoseconds, and a second one that is cut.
    #[test]
    fn a_cut_file_is_told_as_far_as_it_reads(rt: HostRuntime) -> Result<(), Fail> {
        let form = read_form(&CUT_FILE).ok_or("no magic")?;
        let records = read_records(rt.alloc(), form, &CUT_FILE, 24)?;
        assert!(rt; matches!(records.end, FileEnd::Cut { at: 100 }));
        assert_eq!(rt; records.packets.len(), 1);
        let packet = records.packets.get(0).ok_or("no packet")?;
        assert_eq!(rt; packet.time, 1_700_000_000_000_007_000);
        assert_eq!(rt; packet.from, 40);
        assert_eq!(rt; packet.len, 60);
        Ok(())
    }
}
