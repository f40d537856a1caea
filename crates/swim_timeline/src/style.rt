//! How a picture looks: its colours, for light and for dark surroundings, and the shapes of its marks.

/// The colours of a picture and the shapes of its marks. Each kind of mark has a shape of its own, so that nothing
/// rests on colours alone.
pub(crate) const STYLE: &str = r##"<style>
svg{font:12px system-ui,-apple-system,"Segoe UI",Helvetica,Arial,sans-serif}
text{fill:#1f2328}
.heading{font-size:17px;font-weight:600}
.id,.number{font-weight:600}
.address,.again,.tick,.bound{fill:#59636e;font-size:10.5px}
.remark{fill:#9a3412;font-weight:600}
.paper,.ask,.relay,.removal{fill:#fff}
.band{fill:#f6f8fa}
.grid{stroke:#d8dee4}
.listed{stroke:#8c959f;stroke-width:1.5}
.failed{stroke:#8c959f;stroke-width:1.5;stroke-dasharray:2 4}
.probe{fill:#0969da}
.ack{fill:none;stroke:#1a7f37;stroke-width:2.2}
.ask,.relay,.asks{stroke:#9a6700;stroke-width:1.6}
.asks{fill:none;stroke-dasharray:3 3}
.judgement{fill:none;stroke:#cf222e;stroke-width:2.8}
.join{fill:#8250df}
.removal{stroke:#8250df;stroke-width:1.8}
.gap{fill:none;stroke:#bc4c00;stroke-width:1.5}
.reach{fill:none;stroke:#bc4c00;stroke-width:1.5;stroke-dasharray:1.5 3}
.cut{fill:none;stroke:#9a3412;stroke-width:1.5;stroke-dasharray:6 4}
@media (prefers-color-scheme:dark){
text{fill:#e6edf3}
.address,.again,.tick,.bound{fill:#9198a1}
.remark{fill:#ffa657}
.paper,.ask,.relay,.removal{fill:#0d1117}
.band{fill:#151b23}
.grid{stroke:#2a313c}
.listed,.failed{stroke:#6e7681}
.probe{fill:#58a6ff}
.ack{stroke:#3fb950}
.ask,.relay,.asks{stroke:#d29922}
.judgement{stroke:#ff7b72}
.join{fill:#bc8cff}
.removal{stroke:#bc8cff}
.gap,.reach{stroke:#f0883e}
.cut{stroke:#ffa657}
}
</style>
<defs>
<circle id="probe" r="4.5"/>
<path id="ack" d="M-5 0-1.5 3.5 5-4"/>
<path id="ask" d="M0-6 6 0 0 6-6 0Z"/>
<path id="relay" d="M-3.5-3.5h7v7h-7Z"/>
<path id="judgement" d="M-5-5 5 5M5-5-5 5"/>
<path id="join" d="M0-6 5.5 4h-11Z"/>
<path id="removal" d="M0 6 5.5-4h-11Z"/>
<path id="listed" d="M-9 0H9"/>
<path id="failed" d="M-9 0H9"/>
<path id="gap" d="M-9-3.5V3.5M9-3.5V3.5M-9 0H9"/>
</defs>
"##;
