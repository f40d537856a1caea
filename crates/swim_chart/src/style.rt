//! How a picture looks: its colours, for light and for dark surroundings, the shapes of its marks, and its legend.

/// The description of a picture, its colours, those of `swim_timeline`, and the shapes of its marks. Each fate has a
/// shape of its own, so that nothing rests on colours alone.
pub(crate) const STYLE: &str =
    r##"<desc id="desc">What became of the datagrams of a probe. Each member has a lane. Steps run from left to right in the order in which one follows from the other, not to scale, as members have no common clock.</desc>
<style>
svg{font:12px system-ui,-apple-system,"Segoe UI",Helvetica,Arial,sans-serif}
text{fill:#1f2328}
.heading{font-size:17px;font-weight:600}
.id{font-weight:600}
.part,.entry,.note{fill:#59636e;font-size:10.5px}
.entry{text-anchor:middle}
.label,.entry{paint-order:stroke;stroke:#fff;stroke-width:3px;stroke-linejoin:round}
.paper{fill:#fff}
.lane{stroke:#8c959f;stroke-width:1.5}
.end{stroke:#cf222e;stroke-width:1.5;stroke-dasharray:6 4}
.ping{stroke:#0969da}
.ack{stroke:#1a7f37}
.ping-req{stroke:#9a6700}
.whole,.half,.unknown{fill:none;stroke-width:2}
.unknown{stroke-dasharray:2 5}
.ping .whole{marker-end:url(#ping-head)}
.ack .whole{marker-end:url(#ack-head)}
.ping-req .whole{marker-end:url(#ping-req-head)}
.ping-head{fill:#0969da}
.ack-head{fill:#1a7f37}
.ping-req-head{fill:#9a6700}
.lost,.ignored,.unsent{fill:none;stroke:#cf222e;stroke-width:2.4}
@media (prefers-color-scheme:dark){
text{fill:#e6edf3}
.part,.entry,.note{fill:#9198a1}
.label,.entry{stroke:#0d1117}
.paper{fill:#0d1117}
.lane{stroke:#6e7681}
.end,.lost,.ignored,.unsent{stroke:#ff7b72}
.ping{stroke:#58a6ff}
.ack{stroke:#3fb950}
.ping-req{stroke:#d29922}
.ping-head{fill:#58a6ff}
.ack-head{fill:#3fb950}
.ping-req-head{fill:#d29922}
}
</style>
<defs>
<marker id="ping-head" viewBox="0 0 10 10" refX="9" refY="5" markerWidth="10" markerHeight="10" markerUnits="userSpaceOnUse" orient="auto"><path class="ping-head" d="M0 1 10 5 0 9Z"/></marker>
<marker id="ack-head" viewBox="0 0 10 10" refX="9" refY="5" markerWidth="10" markerHeight="10" markerUnits="userSpaceOnUse" orient="auto"><path class="ack-head" d="M0 1 10 5 0 9Z"/></marker>
<marker id="ping-req-head" viewBox="0 0 10 10" refX="9" refY="5" markerWidth="10" markerHeight="10" markerUnits="userSpaceOnUse" orient="auto"><path class="ping-req-head" d="M0 1 10 5 0 9Z"/></marker>
<path id="lost" d="M-5-5 5 5M5-5-5 5"/>
<circle id="ignored" r="6.5"/>
<path id="unsent" d="M0-7V7"/>
</defs>
<rect class="paper" width="100%" height="100%"/>
"##;

/// What follows the conclusion: how the picture is read.
pub(crate) const LEGEND: &str = r##"</text>
<text class="note" x="24" y="76">From left to right in the order in which one step follows from the other. Numbers are entries of the lane's member.</text>
<g id="legend" aria-hidden="true">
<g class="ping"><path class="whole" d="M24 98H54"/></g><text x="62" y="102">ping</text>
<g class="ack"><path class="whole" d="M214 98H244"/></g><text x="252" y="102">ack</text>
<g class="ping-req"><path class="whole" d="M404 98H434"/></g><text x="442" y="102">ping-req to a relay</text>
<path class="end" d="M594 98H624"/><text x="632" y="102">end of the period</text>
<g class="ping"><path class="half" d="M24 122H44"/><use class="lost" href="#lost" x="44" y="122"/></g><text x="62" y="126">lost: nobody heard it</text>
<g class="ack"><path class="whole" d="M214 122H244"/><use class="ignored" href="#ignored" x="244" y="122"/></g><text x="258" y="126">heard, and ignored</text>
<g class="ack"><path class="whole" d="M414 122H434"/><use class="unsent" href="#unsent" x="414" y="122"/></g><text x="442" y="126">heard, and never sent</text>
<g class="ping"><path class="unknown" d="M594 122H624"/></g><text x="632" y="126">unknown: no journal</text>
</g>
<g aria-hidden="true">
"##;
