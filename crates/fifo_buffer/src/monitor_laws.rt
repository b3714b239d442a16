//! The theorems on the sections of a monitor. Each law is the contract of a function that does
//! nothing, so that it is proved with the crate.

ghost use Rattle.{event_log.specs.declared.ids.Tid.Tid, fifo_buffer.specs.declared.monitor_blocks.MonitorAsk.MonitorAsk};
ghost use Rattle.fifo_buffer.specs.{MonitorHistories.{MonitorLosesNoWakeUp, MonitorServesInOrder}, MonitorSections.IsMonitorSection};
ghost use Rattle.fifo_buffer.specs.{MonitorWakeUps.FreeMonitorsStrandNoThread, Monitors.{MonitorState, monitor_edited_by, monitor_told_by}};

/// Each section of a monitor does what a section may do: an effect at its thread's turn that the
/// buffer allows, a wait, or a wake-up.
pub fn monitor_sections_are_lawful()
    ensures { (t : Tid) (ask : MonitorAsk) (x : MonitorState)
        → IsMonitorSection t ask (monitor_told_by t ask x) x (monitor_edited_by t ask x) }
{}

/// First come, first served. After any sections, the threads whose calls of a side arrived at a
/// monitor, oldest first, are those whose calls of this side took effect, in the order of these
/// effects, followed by those in the line. A woken thread is not overtaken.
pub fn monitor_serves_in_order()
    ensures { MonitorServesInOrder }
{}

/// No lost wake-up. After any sections, if the first of a line sleeps though the buffer allows its
/// call, some thread owes it a wake-up.
pub fn monitor_loses_no_wake_up()
    ensures { MonitorLosesNoWakeUp }
{}

/// No lost wake-up, while a monitor is free. After any sections, if no thread owes a wake-up at a
/// buffer, no first of a line sleeps there whose call the buffer allows.
pub fn free_monitors_strand_no_thread()
    ensures { FreeMonitorsStrandNoThread }
{}
