// What a record and a tray hold.
ghost use Rattle.std.specs.Prelude.{◌≡◌, length};
ghost use Rattle.laws.specs.Out.{written};
ghost use Rattle.records.specs.Tray.{tray_of, tray_count};
ghost use Rattle.words.specs.Code.{code_of, none_of};
ghost use Rattle.words.specs.Read.{record_words};

#[unsafe(no_mangle)]
pub extern "C" fn compose_record(record: &[u8], answer: &mut [u64]) -> u64
    ensures { (result ≡ code_of (none_of (record_words «record».now (length answer.old))))
        × (answer.new ≡ written (record_words «record».now (length answer.old)) answer.old) }
{
    capi::read::compose_record(record, answer)
}

#[unsafe(no_mangle)]
pub extern "C" fn compose_tray(tray: &[u8]) -> u64
    ensures { result ≡ code_of (tray_count (tray_of tray.now)) }
{
    capi::read::compose_tray(tray)
}
