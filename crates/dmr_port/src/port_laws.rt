//! Laws of ports: functions that do nothing, whose contracts are facts about their records.

ghost use Rattle.std.specs.Prelude.{Bool, [], None, Some};
ghost use Rattle.dmr_port.specs.Record.{Agrees};

/// Before the first connection, an empty record agrees with an empty log.
pub fn empty_records_agree()
    ensures { (is_carrier : Bool) → Agrees is_carrier None [] (Some []) (Some []) }
{}
