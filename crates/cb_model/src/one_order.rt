//! The laws of one order. Each is a clause of a function that does nothing.
ghost use Rattle.std.specs.Prelude.{ℕ, List};
ghost use Rattle.cb_model.specs.Serial.{IsSerial};
ghost use Rattle.cb_model.specs.Times.{Timed, AreTimes, untimed};
ghost use Rattle.cb_model.specs.Shown.{HandleChange, AreShownBy};
ghost use Rattle.cb_model.specs.Dated.{AreDated};
ghost use Rattle.cb_model.specs.Lanes.{LaneRun, AreDatedInLanes, all_calls};

/// Answers whose calls have times are those of one order. Four facts about times give it: replies
/// of the map; replies by one history of all changes; versions alone, where the answers are legal;
/// and the same of lanes with clocks.
pub fn serial_laws()
    ensures serial_by_times { (first handles : ℕ) (ts : List Timed)
        → AreTimes first handles ts → IsSerial first handles (untimed ts) }
    ensures serial_by_history { (first handles : ℕ) (history : List HandleChange)
        (ts : List Timed)
        → AreShownBy first handles history ts → IsSerial first handles (untimed ts) }
    ensures serial_by_versions { (first handles : ℕ) (history : List HandleChange)
        (ts : List Timed)
        → AreDated first handles history ts → IsSerial first handles (untimed ts) }
    ensures serial_by_lanes { (first handles : ℕ) (history : List HandleChange)
        (zero : LaneRun) (lanes : List LaneRun)
        → AreDatedInLanes first handles history zero lanes
        → IsSerial first handles (untimed (all_calls zero lanes)) }
{}
