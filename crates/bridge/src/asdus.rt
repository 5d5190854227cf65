// ASDUs read, checked, written and told plain: records, and answers as numbers, as bridge_records has them.
use asdu::{ReadAsdu, checking};
use bridge_records::{answers, records};

// The record is written as far as `record` reaches, the one beside a refusal too.
pub fn gg_asdu_read(s: &[u8], record: &mut [u8]) -> u32 {
    let read = asdu_read::read_asdu(s);
    records::put_record(record, read.asdu);
    answers::number(read.answer)
}

pub fn gg_asdu_check(s: &[u8]) -> u32 {
    answers::number(checking::check_asdu(s))
}

pub fn gg_asdu_plain(s: &[u8]) -> u32 {
    answers::plain_number(asdu_plain::plain_asdu(s))
}

pub fn gg_asdu_write(record: &[u8], out: &mut [u8]) -> u32 {
    answers::length(asdu_write::write_asdu(&records::record_in(record), out))
}

pub fn gg_asdu_rewrite(s: &[u8], out: &mut [u8]) -> u32 {
    let ReadAsdu { asdu, answer } = asdu_read::read_asdu(s);
    if answer.is_err() {
        return answers::READING_REFUSED + answers::number(answer);
    }
    answers::length(asdu_write::write_asdu(&asdu, out))
}
